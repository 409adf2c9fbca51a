// The C interface: the functions of include/guc.h, each held to the definition that the Rattle function behind it is
// held to.
#![tactic(auto)]

ghost use Rattle.std.specs.Prelude.{◌≡◌};
ghost use Rattle.guc.specs.BothWays.{BothWays};
ghost use Rattle.guc.specs.Interface.{interface};

mod calls;
mod messages;
mod numbers;
mod parts;
mod records;
mod replies;
mod versions;
mod whole;

// Does nothing: it is here for its contract, that packing and unpacking agree in C's numbers.
pub fn both_ways()
    ensures { BothWays }
{}

// The version of the interface, in the name too: an object that was compiled with a header of another version does not
// link.
#[unsafe(no_mangle)]
pub extern "C" fn guc_interface_3() -> u32
    ensures { result ≡ interface }
{
    3
}
