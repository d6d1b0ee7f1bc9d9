// Which calls are taken, and what each that is taken puts on the disk.
//
// The refusals are checked in one order, and the first that applies is told: bytes that are no call; a page
// that hasn't 1,024 bytes; a page that is not there; a write when the log is full. Only the last asks for the
// log, so all others are told without a look at the disks.
ghost use Rattle.std.specs.Prelude.{◌≡◌, ◌<◌, ◌≤◌, true, false, List, length, MatchOption, MatchResult, ◌==◌};
ghost use Rattle.model.specs.Book.{Page};
ghost use Rattle.wire.specs.Calls.{meant};
ghost use Rattle.wire.specs.Answers.{refusal_number, refusal_place};
ghost use Rattle.journal.specs.Journal.{holds, count as count_on, call_puts, recovery};
ghost use Rattle.journal.specs.Plans.{plan_puts};
ghost use Rattle.journal.specs.Admission.{early, late, Gives, RefusalsAre};

use crate::plan::Plan;
use layout::count::Count;
use layout::log::Log;
use octets::BLOCK;
use wire::answer::Refusal;
use wire::call::Call;

// The bytes of a page, if they are a whole one.
fn whole(bytes: &[u8]) -> Option<&[u8]>
    ensures { MatchOption result ((length bytes.now == 1024) ≡ false) (λ x. ((length bytes.now == 1024) ≡ true) × (x.now ≡ bytes.now)) }
{
    if bytes.len() == BLOCK {
        Some(bytes)
    } else {
        None
    }
}

// A page's number, if there is such a page.
fn there(page: u32, pages: u32) -> Option<u32>
    ensures { MatchOption result (pages ≤ page) (λ x. (x ≡ page) × (page < pages)) }
{
    if page < pages { Some(page) } else { None }
}

// The call itself, or why it is refused before the log is looked at.
pub fn admit<'a>(pages: u32, call: Call<'a>) -> Result<Call<'a>, Refusal>
    ensures { MatchResult result
        (λ c. (early pages (meant call.entry) ≡ 0) × (meant c ≡ meant call.entry))
        (λ e. (refusal_number e ≡ early pages (meant call.entry)) × (refusal_place e ≡ 0)) }
{
    match call {
        Call::Read { page } => {
            let Some(page) = there(page, pages) else {
                return Err(Refusal::NoSuchPage);
            };
            Ok(Call::Read { page })
        }
        Call::Write { page, bytes } => {
            let Some(bytes) = whole(bytes) else {
                return Err(Refusal::Unfit);
            };
            let Some(page) = there(page, pages) else {
                return Err(Refusal::NoSuchPage);
            };
            Ok(Call::Write { page, bytes })
        }
        Call::Close | Call::Size => Ok(call),
    }
}

// What an admitted call puts on the disk, by the log as it is now, or that the log is full.
pub fn plan(log: Log, call: Call<'_>) -> Result<Plan, Refusal>
    ensures { MatchResult result
        (λ p. (late log.count.writes (meant call.entry) ≡ 0)
        × ((b : List Page) (given : Page) → count_on b ≡ log.count.writes → Gives (meant call.entry) given → plan_puts p given b ≡ call_puts b (meant call.entry)))
        (λ e. (refusal_number e ≡ late log.count.writes (meant call.entry)) × (refusal_place e ≡ 0)) }
{
    match call {
        Call::Write { page, .. } => {
            let Some(slot) = log.count.next() else {
                return Err(Refusal::LogFull);
            };
            Ok(Plan::Write { slot, page })
        }
        Call::Close => Ok(Plan::Close { count: log.count }),
        Call::Read { .. } | Call::Size => Ok(Plan::Nothing),
    }
}

// What recovery puts on the disk, by the log as power left it.
pub fn replay(log: Log) -> Plan
    ensures { (b : List Page) (given : Page) → holds b ≡ log.holds → count_on b ≡ log.count.writes → plan_puts result given b ≡ recovery b }
{
    if log.holds {
        return Plan::Replay { count: log.count };
    }
    Plan::Replay { count: Count::NONE }
}

// The refusals that these functions tell are the book's, in its order.
pub fn refusals_stand()
    ensures { RefusalsAre }
{}
