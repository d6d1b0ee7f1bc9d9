// A call: worked out, written, answered.
//
// A call begins by reading what it needs and working out its answer and all that it writes; then the writes
// are done; and only after the last is the answer told. A read and most refusals don't look at the log.
ghost use Rattle.std.specs.Prelude.{◌≡◌, None};
ghost use Rattle.std.specs.Result.{result_ok};
ghost use Rattle.wire.specs.Calls.{meant, call_of};
ghost use Rattle.journal.specs.Admission.{early, InBytes};
ghost use Rattle.journal.specs.declared.plan.Plan.TheVariants.{Nothing};
ghost use Rattle.engine.specs.Calling.{Begun, LogRead, Carries, Logs, Answered};
ghost use Rattle.engine.specs.Living.{AnswerLives};

use crate::perform::finish;
use crate::work::Work;
use device::Dead;
use device::mirror::Pair;
use journal::admit;
use journal::plan::Plan;
use layout::log::{Front, Log};
use layout::places::Layout;
use octets::{BLOCK, Block, EMPTY};
use wire::answer::Answer;
use wire::call;
use wire::call::Call;

// What a call is answered; the bytes of a page are beside it.
pub type Reply = Answer<()>;

// A call that has begun: its answer, and what is to be written before it is told.
#[derive(Clone, Copy, PartialEq, Eq, Debug)]
pub struct Turn {
    pub reply: Reply,
    pub work: Work,
}

// A call that writes nothing.
fn idle(reply: Reply) -> Turn
    ensures reply { result.reply ≡ reply }
    ensures plan { result.work.plan ≡ Nothing }
    ensures copy { result.work.copy ≡ None }
{
    Turn {
        reply,
        work: Work {
            copy: None,
            plan: Plan::Nothing,
            list: EMPTY,
            block: EMPTY,
        },
    }
}

// A call that is done when this is written.
fn writing(plan: Plan, list: Block, block: Block) -> Turn
    ensures reply { result.reply ≡ Answer.Done }
    ensures plan { result.work.plan ≡ plan }
    ensures copy { result.work.copy ≡ None }
    ensures list { result.work.list ≡ list }
    ensures block { result.work.block ≡ block }
{
    Turn {
        reply: Answer::Done,
        work: Work {
            copy: None,
            plan,
            list,
            block,
        },
    }
}

// Reads the log's header and list, as at one moment: both stand in the one read. Unless both disks are dead.
fn read_log<P: Pair>(disks: &mut P, pages: u32, list: &mut Block) -> Result<Log, Dead>
    ensures { LogRead (P.Pair.disks disks.old) (P.Pair.disks disks.new) pages list.new (result_ok result) }
{
    let mut bytes = [0; Front::BYTES];
    disks.read(Layout::HEADER, &mut bytes)?;
    octets::copy_block(octets::block_at(&bytes, BLOCK), list);
    Ok(Log::decode(octets::block_at(&bytes, 0), list, pages))
}

// The bytes that come with a call, in a block of their own.
fn given(call: Call<'_>) -> Block
    ensures { Carries (meant call.entry) result }
{
    match call {
        Call::Write { bytes, .. } => *bytes.as_array().unwrap_or(&EMPTY),
        Call::Read { .. } | Call::Close | Call::Size => EMPTY,
    }
}

// A call that asks for the log: a write or a close.
fn begin_logged<P: Pair>(
    disks: &mut P,
    pages: u32,
    call: Call<'_>,
    page: &Block,
) -> Result<Turn, Dead>
    requires { (early pages (meant call) ≡ 0) × ((InBytes (meant call)) × (Logs (meant call))) }
    ensures { Begun (P.Pair.disks disks.old) (P.Pair.disks disks.new) pages (meant call.entry) page.now (result_ok result) }
{
    let mut list = EMPTY;
    let log = read_log(disks, pages, &mut list)?;
    match admit::plan(log, call) {
        Ok(plan) => Ok(writing(plan, list, given(call))),
        Err(refusal) => Ok(idle(Answer::Refused(refusal))),
    }
}

// Begins a call, unless both disks are dead: works out its answer and all that it writes. A page that is read
// is put into `page`.
pub fn begin<P: Pair>(
    disks: &mut P,
    pages: u32,
    bytes: &[u8],
    page: &mut Block,
) -> Result<Turn, Dead>
    ensures { Begun (P.Pair.disks disks.old) (P.Pair.disks disks.new) pages (call_of bytes.now) page.new (result_ok result) }
{
    let call = match call::decode(bytes) {
        Ok(call) => call,
        Err(error) => return Ok(idle(Answer::Refused(error.into()))),
    };
    let call = match admit::admit(pages, call) {
        Ok(call) => call,
        Err(refusal) => return Ok(idle(Answer::Refused(refusal))),
    };
    match call {
        Call::Read { page: number } => {
            disks.read(Layout::page(number), page)?;
            Ok(idle(Answer::Page(())))
        }
        Call::Size => Ok(idle(Answer::Number(pages))),
        Call::Write { .. } | Call::Close => begin_logged(disks, pages, call, page),
    }
}

// A whole call, unless both disks are dead. The answer is told only here, after the last write.
//
// On disks of which all is known, at rest and reachable, it leads to disks that are reachable, with the answer
// in their past, and some book explains all that was ever answered: that is the register's main promise, on
// the call that programs make.
pub fn answer<P: Pair>(
    disks: &mut P,
    pages: u32,
    bytes: &[u8],
    page: &mut Block,
) -> Result<Reply, Dead>
    ensures told { Answered (P.Pair.disks disks.old) (P.Pair.disks disks.new) pages (call_of bytes.now) page.new (result_ok result) }
    ensures lives { AnswerLives (P.Pair.disks disks.old) (P.Pair.disks disks.new) pages (call_of bytes.now) page.new (result_ok result) }
{
    let turn = begin(disks, pages, bytes, page)?;
    finish(disks, &turn.work)?;
    Ok(turn.reply)
}
