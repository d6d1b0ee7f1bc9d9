// How much is kept while a call, a recovery or a making is under way.
//
// All of it stands in a few fields of a fixed size: nothing grows with the disks or with the log. A work is
// taken apart here by all its fields, so a field that is added to it has to be counted too.
ghost use Rattle.std.specs.Prelude.{◌≡◌, ◌≤◌, length};
ghost use Rattle.engine.specs.Memory.{packed, copy_numbers, plan_numbers, reply_numbers, memory_of};

use crate::call::Reply;
use crate::work::Work;
use journal::plan::Plan;
use octets::Block;
use wire::answer::Answer;

fn of_block(block: &Block) -> u32
    ensures value { result ≡ length (packed block.now) }
    ensures bound { result ≤ 128 }
{
    block.len().div_ceil(8) as u32
}

fn of_copy(copy: Option<u64>) -> u32
    ensures value { result ≡ length (copy_numbers copy) }
    ensures bound { result ≤ 2 }
{
    match copy {
        None => 1,
        Some(_) => 2,
    }
}

fn of_plan(plan: Plan) -> u32
    ensures value { result ≡ length (plan_numbers plan) }
    ensures bound { result ≤ 3 }
{
    match plan {
        Plan::Nothing => 1,
        Plan::Write { .. } => 3,
        Plan::Close { .. } | Plan::Replay { .. } | Plan::Make { .. } => 2,
    }
}

fn of_reply(reply: Option<Reply>) -> u32
    ensures value { result ≡ length (reply_numbers reply) }
    ensures bound { result ≤ 3 }
{
    match reply {
        None | Some(Answer::Done | Answer::Page(())) => 1,
        Some(Answer::Number(_)) => 2,
        Some(Answer::Refused(_)) => 3,
    }
}

// How many numbers of eight bytes are kept: the reply, if there is one, the work, the block that is held for
// the second disk, and the page beside the reply.
pub fn numbers_kept(reply: Option<Reply>, work: &Work, held: &Block, page: &Block) -> u32
    ensures value { result ≡ length (memory_of reply work.now held.now page.now) }
    ensures bound { result ≤ 1024 }
{
    let Work {
        copy,
        plan,
        list,
        block,
    } = *work;
    let blocks = of_block(&list) + of_block(&block) + of_block(held) + of_block(page);
    of_reply(reply) + of_copy(copy) + of_plan(plan) + blocks
}
