// What an opening sends: the caller's message with the fence that was picked. It is lent neither table nor state, so that
// neither can be written before the ring has answered.
ghost use Rattle.std.specs.Prelude.{◌≡◌, [], cond, eqb};
ghost use Rattle.ring.specs.AtOnce.{opened_by};
ghost use Rattle.side.specs.Words.{state_of, in_words};
ghost use Rattle.requests.specs.Plan.{sent_plan};
ghost use Rattle.wall.specs.Private.{planned_send};

use requests::{Ask, Plan};
use ring::DESCRIPTOR_DWORDS;
use side::STATE_WORDS;

// Where the plan accepts, sends the message with its fence, and its first two dwords as they were judged. Where the ring
// refuses it, the plan is that refusal, for a table of n records.
pub(crate) fn send_planned(
    p: Plan,
    n: usize,
    ask: Ask,
    sender: &mut [u32; STATE_WORDS],
    desc: &mut [u32; DESCRIPTOR_DWORDS],
    buf: &mut [u32],
    msg: &[u32],
) -> Plan
    ensures { (in_words result.answer.code 0 sender.new desc.new buf.new []
        ≡ planned_send p ask msg.now (state_of sender.old) desc.old buf.old)
        × (result ≡ cond (eqb p.answer.code 0) (sent_plan result.answer.code n p) p) }
{
    if p.answer.code != 0 {
        return p;
    }
    let header = message::with_fence(p.last, ask.header);
    let sent = side::send_as(sender, &mut desc[..], buf, header, ask.word, msg);
    let code = refusal::number_of(&sent);
    if code != 0 {
        return requests::refuse(code, n, p.was);
    }
    p
}
