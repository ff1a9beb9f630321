//! What seats do at the table.
ghost use Rattle.std.specs.Prelude.{◌≡◌, ◌<◌, ◌∷◌, [], None, All, IfOk, length, map};
ghost use Rattle.turn_book.specs.Turns.{Ends, FollowsHistory, IsLaidOut, AddsTo, newcomers, resting, holding, rested, dealt_of, standing_of, pass_of, found_of};

use crate::kept::Kept;
use crate::pass::Pass;
use crate::turns::{AllPasses, BookSeat, BookTable, FirstPass, Give, SharedTable, Take};
use ss_base::{Memory, Seq};
use std::alloc::Global;
use std::sync::Wait;

// Waits until the state is at home, and takes it. A seat that finds it away sleeps while the word is 1.
pub fn take<S: Kept, R: Wait>(rt: &R, table: &SharedTable<S>, seat: &mut BookSeat<S>) -> S
    requires table { (seat.old.table_id ≡ table.now.table_id) × IsLaidOut table.now.table_id }
    requires rests { seat.old.me ≡ (resting (standing_of seat.old.me.0 ∷ []), []) }
    ensures same { seat.new.table_id ≡ seat.old.table_id }
    ensures holds { seat.new.me ≡ (holding (standing_of seat.old.me.0) (S.history result), (0, None) ∷ []) }
    ensures opening { S.opening result ≡ (standing_of seat.old.me.0).opening }
    ensures follows { FollowsHistory (S.history result) (standing_of seat.old.me.0) }
{
    for _ in rt.forever() {
        if table.compare_exchange::<Take>(seat, 0, 0, 1) == 0 {
            return table.exchange(seat, 0, None).unwrap();
        }
        table.park(rt, 0, 1);
    }
    unreachable!()
}

// Gives the state back, and wakes one seat that sleeps.
pub fn give<S: Kept>(table: &SharedTable<S>, seat: &mut BookSeat<S>, state: S)
    requires table { (seat.old.table_id ≡ table.now.table_id) × IsLaidOut table.now.table_id }
    requires holds { seat.old.me ≡ (holding (standing_of seat.old.me.0) (found_of seat.old.me.0), (0, None) ∷ []) }
    requires opening { S.opening state ≡ (standing_of seat.old.me.0).opening }
    requires adds { AddsTo seat.old.me.0 (S.history state) }
    ensures same { seat.new.table_id ≡ seat.old.table_id }
    ensures rests { seat.new.me ≡ rested seat.old.me.0 (S.history state) }
{
    let taken = table.exchange(seat, 0, Some(state));
    let None = taken else { unreachable!() };
    table.store::<Give>(seat, 0, 0);
    table.wake_one(0);
}

// Gives each pass a seat of its own.
pub fn deal<S: Kept + Drop>(
    alloc: Global,
    table: &SharedTable<S>,
    mut seat: BookSeat<S>,
    passes: u32,
) -> Result<Seq<Pass<S>>, Memory>
    requires table { (seat.table_id ≡ table.now.table_id) × IsLaidOut table.now.table_id × (passes ≡ table.now.key.passes) }
    requires all { seat.me ≡ (newcomers (S.opening table.now.key.state.value) passes, []) }
    ensures { IfOk result (λ dealt. dealt ≡ dealt_of table.now.table_id (S.opening table.now.key.state.value) passes) }
{
    let mut dealt = Seq::new(alloc);
    for _number in 0..passes {
        let first = table.split_seat::<FirstPass>(&mut seat);
        dealt.push(Pass { seat: first })?;
    }
    Ok(dealt)
}

// Puts all passes at one seat.
pub fn gather<S: Kept>(table: &SharedTable<S>, passes: Seq<Pass<S>>) -> BookSeat<S>
    requires table { IsLaidOut table.now.table_id }
    requires some { 0 < length passes }
    requires of_book { All (λ p. p.book ≡ table.now.table_id) passes }
    ensures same { result.table_id ≡ table.now.table_id }
    ensures rests { result.me ≡ (resting result.me.0.standings, []) }
    ensures passes { map (λ p. pass_of table.now.table_id p) result.me.0.standings ≡ passes }
{
    let mut left = passes.into_vec();
    let Pass { mut seat } = left.pop().unwrap();
    while let Some(pass) = left.pop() {
        let Pass { seat: other } = pass;
        table.join_seat::<AllPasses>(&mut seat, other);
    }
    left.destroy_empty();
    seat
}

// Takes the state out, where one seat has all passes.
pub fn end<S: Kept>(table: BookTable<S>, seat: BookSeat<S>) -> S
    requires table { (seat.table_id ≡ table.shared.table_id) × IsLaidOut table.shared.table_id }
    requires rests { seat.me ≡ (resting seat.me.0.standings, []) }
    requires all { length seat.me.0.standings ≡ table.shared.key.passes }
    ensures { Ends S.opening S.history (S.opening table.shared.key.state.value) table.shared.key.passes seat.me.0.standings result }
{
    let mut closed = table.close_with(seat);
    let state = closed.take(0).unwrap();
    closed.free();
    state
}
