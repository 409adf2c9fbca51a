// A wall of requests for C: each call is the library's own, on a table of `struct guc_record` and a wall's two words.
ghost use Rattle.std.specs.Prelude.{◌≡◌};
ghost use Rattle.message.specs.Packing.{unpack};
ghost use Rattle.side.specs.Words.{state_of};
ghost use Rattle.requests.specs.Fence.{age};
ghost use Rattle.requests.specs.Calls.{wall_of, number_alone, given, fresh, reply};
ghost use Rattle.requests.specs.Opening.{sending};
ghost use Rattle.wall.specs.Sent.{sent_in};

use requests::{Answer, Record, WALL_WORDS};
use ring::DESCRIPTOR_DWORDS;
use side::STATE_WORDS;

#[unsafe(no_mangle)]
pub extern "C" fn guc_wall_fresh(
    wall: &mut [u16; WALL_WORDS],
    table: &mut [Record],
    reply_n: usize,
) -> u32
    ensures { given (number_alone result) table.new wall.new
        ≡ fresh (wall_of table.old wall.old) reply_n }
{
    wall::fresh(wall, table, reply_n)
}

#[unsafe(no_mangle)]
pub extern "C" fn guc_wall_send(
    wall: &mut [u16; WALL_WORDS],
    table: &mut [Record],
    sender: &mut [u32; STATE_WORDS],
    desc: &mut [u32; DESCRIPTOR_DWORDS],
    buf: &mut [u32],
    msg: &[u32],
    room: u32,
) -> Answer
    ensures { sent_in result table.new wall.new sender.new desc.new buf.new
        ≡ sending (wall_of table.old wall.old) room msg.now (state_of sender.old)
        desc.old buf.old }
{
    wall::send(wall, table, sender, desc, buf, msg, room)
}

// The message is unpacked before the table is judged, and what refuses it is said after 35 and 2: no dword is read twice.
#[unsafe(no_mangle)]
pub extern "C" fn guc_wall_reply(
    wall: &[u16; WALL_WORDS],
    table: &mut [Record],
    msg: &[u32],
) -> Answer
    ensures { given result table.new wall.now
        ≡ reply (wall_of table.old wall.now) (unpack msg.now) }
{
    let heard = requests::received(msg);
    wall::reply(wall, table, heard)
}

#[unsafe(no_mangle)]
pub extern "C" fn guc_wall_age(fence: u16, newest: u16) -> i32
    ensures { result ≡ age fence newest }
{
    requests::age(fence, newest)
}
