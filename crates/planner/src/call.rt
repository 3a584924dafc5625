// The public call. It answers every input: the refusals in their order, then the plan.
ghost use Rattle.std.specs.Prelude.{true, ◌≡◌, length};
ghost use Rattle.planner.specs.Call.{laid_out};
ghost use Rattle.planner.specs.Plan.{plan_of};
ghost use Rattle.planner.specs.Promises.{PlanPromise};
ghost use Rattle.planner.specs.Wish.{is_wish};

use crate::commands::{end, open, set_up, shift_left, write_cells};
use crate::pen::Buffer;
use crate::wish::{Cells, Wish, is_wish};
use controller::Answer;

// The plan of a wish, and how many records it has.
fn write_plan(wish: Wish, marks: &Cells, values: &Cells, out: &mut Buffer) -> usize
    requires { is_wish wish marks.now ≡ true }
    ensures { let plan = plan_of wish marks.now values.now in
        (result ≡ length plan) × (out.new ≡ laid_out plan out.old) }
{
    let mut pen = open(out, wish);
    set_up(out, &mut pen, wish);
    shift_left(out, &mut pen, wish.shift);
    write_cells(out, &mut pen, wish.function.n, marks, values);
    end(out, &mut pen, wish);
    pen.at
}

// The plan for a wish: marks say which of the 144 cells to write, values what to write there. Six bytes a record; how many
// records were written is told.
pub fn plan(wish: Wish, marks: &[u8], values: &[u8], out: &mut [u8]) -> Result<usize, Answer>
    ensures { PlanPromise wish marks.now values.now out.old result out.new }
{
    let Ok(marks) = <&Cells>::try_from(marks) else {
        return Err(Answer::NotWhole);
    };
    let Ok(values) = <&Cells>::try_from(values) else {
        return Err(Answer::NotWhole);
    };
    if !is_wish(wish, marks) {
        return Err(Answer::NotWish);
    }
    let Some(out) = out.first_chunk_mut::<2808>() else {
        return Err(Answer::OutputShort);
    };
    Ok(write_plan(wish, marks, values, out))
}
