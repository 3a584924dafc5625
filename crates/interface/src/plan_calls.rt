// The plan for a wish of 16 bytes.
ghost use Rattle.std.specs.Prelude.{◌≡◌};
ghost use Rattle.controller.specs.Answers.{number_of};
ghost use Rattle.planner.specs.Call.{reply_to};
ghost use Rattle.interface.specs.Filling.{Fills};
ghost use Rattle.interface.specs.PlanCalls.{planning_of, wishless};
ghost use Rattle.interface.specs.Promises.{YaropeskPlanPromise};

use crate::told::{counted, refused};
use crate::wish_bytes::read_wish;
use controller::{Answer, is_whole};
use planner::{Wish, plan};

// The plan of the wish that was read.
fn plan_for(wish: Wish, marks: &[u8], values: &[u8], out: &mut [u8]) -> u32
    ensures { let reply = reply_to wish marks.now values.now out.old in
        Fills (planning_of reply out.old) result out.new }
{
    counted(plan(wish, marks, values, out))
}

// Where there is no wish: 2, then 13.
fn refuse_wish(marks: &[u8], values: &[u8]) -> u32
    ensures { result ≡ number_of (wishless marks.now values.now) }
{
    if !is_whole(marks) {
        return refused(Answer::NotWhole);
    }
    if !is_whole(values) {
        return refused(Answer::NotWhole);
    }
    refused(Answer::NotWish)
}

// The plan for a wish, six bytes a record, into a buffer of at least 2,808 bytes.
pub fn yaropesk_plan(wish: &[u8], marks: &[u8], values: &[u8], out: &mut [u8]) -> u32
    ensures { YaropeskPlanPromise wish.now marks.now values.now out.old result
        out.new }
{
    match read_wish(wish) {
        None => refuse_wish(marks, values),
        Some(found) => plan_for(found, marks, values, out),
    }
}
