ghost use Rattle.std.specs.Prelude.{◌≡◌, ◌≢◌, ℕ, ◌<◌, ◌≤◌, length};
ghost use Rattle.xc_board.specs.declared.tablet.WordState.TheVariants.{Waiting};
ghost use Rattle.xc_board.specs.Tree.{ends_of};
ghost use Rattle.xc_board.specs.Seats.{IsSeatOf, KeepsSeat, known_at};
ghost use Rattle.xc_board.specs.Worked.{split_tree};

use super::*;
use crate::WordState::{At, Waiting};
use std::test::*;
use std::thread::{Threads, join};

fn tablet(parent: Option<u32>, state: WordState, ends: u64) -> BoardTablet
    ensures { result ≡ record { parent = parent; state = state; ends = ends } }
{
    BoardTablet {
        parent,
        state,
        ends,
    }
}

fn split_tree() -> [BoardTablet; 3]
    ensures { result ≡ split_tree }
{
    [
        tablet(None, At(0), 12),
        tablet(Some(0), Waiting, 20),
        tablet(Some(0), Waiting, 17),
    ]
}

#[test]
fn a_parent_bounds_the_watermark_until_its_children_do(rt: HostRuntime) -> Result<(), Fail> {
    let (board, mut seat) = Board::new(rt.alloc(), split_tree().as_slice())?;
    assert_eq!(rt; board.advance(&mut seat), 0);
    board.raise(&mut seat, 0, 12);
    assert_eq!(rt; board.advance(&mut seat), 12);
    board.activate(&mut seat, 1);
    board.activate(&mut seat, 2);
    board.retire(&mut seat, 0);
    assert_eq!(rt; board.advance(&mut seat), 12);
    board.raise(&mut seat, 1, 20);
    assert_eq!(rt; board.advance(&mut seat), 12);
    board.raise(&mut seat, 2, 17);
    assert_eq!(rt; board.advance(&mut seat), 17);
    assert_eq!(rt; board.observe(&mut seat), 17);
    assert_eq!(rt; board.close(seat), 17);
    Ok(())
}

#[test]
fn a_second_seat_finds_what_the_first_one_raised(rt: HostRuntime) -> Result<(), Fail> {
    let roots = [tablet(None, At(0), 9), tablet(None, At(0), 9)];
    let (board, mut first) = Board::new(rt.alloc(), roots.as_slice())?;
    let mut second = board.split(&mut first);
    board.raise(&mut first, 0, 5);
    board.raise(&mut first, 1, 7);
    assert_eq!(rt; board.advance(&mut second), 5);
    assert_eq!(rt; board.observe(&mut first), 5);
    board.join(&mut first, second);
    assert_eq!(rt; board.close(first), 5);
    Ok(())
}

#[test]
fn a_word_starts_where_it_is_told_and_never_falls(rt: HostRuntime) -> Result<(), Fail> {
    let roots = [tablet(None, At(3), 9), tablet(None, At(7), 9)];
    let (board, mut seat) = Board::new(rt.alloc(), roots.as_slice())?;
    assert_eq!(rt; board.observe(&mut seat), 3);
    board.raise(&mut seat, 0, 8);
    board.raise(&mut seat, 0, 4);
    assert_eq!(rt; board.advance(&mut seat), 7);
    board.raise(&mut seat, 1, 9);
    assert_eq!(rt; board.advance(&mut seat), 8);
    Ok(())
}

// Raises a word again and again, to times below its end and last to the end.
#[tactic(auto, using(crate::proofs::KeepLaws::keeps_refl, crate::proofs::KeepLaws::keeps_then))]
fn raise_often(board: &Board, mut seat: BoardSeat, id: u32, end: u64) -> BoardSeat
    requires seat { IsSeatOf board.now seat }
    requires id { id < length board.now.tablets }
    requires known { known_at seat id ≢ Waiting }
    requires ends { end ≤ ends_of board.now.tablets id }
    ensures { KeepsSeat board.now seat result }
{
    for turn in 0..20_000u64 {
        board.raise(&mut seat, id, turn.min(end));
    }
    seat
}

// Raises the root of the split tree to its end, hands it over to its children, and raises these to theirs.
#[tactic(auto, using(crate::proofs::KeepLaws::keeps_then, crate::proofs::KeepLaws::keeps_active))]
fn hand_over(board: &Board, seat: BoardSeat) -> BoardSeat
    requires seat { IsSeatOf board.now seat }
    requires tree { board.now.tablets ≡ split_tree }
    requires known { known_at seat 0 ≢ Waiting }
    ensures { KeepsSeat board.now seat result }
{
    let mut seat = raise_often(board, seat, 0, 12);
    board.activate(&mut seat, 1);
    board.activate(&mut seat, 2);
    board.retire(&mut seat, 0);
    let seat = raise_often(board, seat, 1, 20);
    raise_often(board, seat, 2, 17)
}

// Advances and observes again and again: whether no answer fell, and the last one.
#[tactic(auto, using(crate::proofs::KeepLaws::keeps_refl, crate::proofs::KeepLaws::keeps_then))]
fn watch(board: &Board, mut seat: BoardSeat) -> (BoardSeat, bool, u64)
    requires { IsSeatOf board.now seat }
    ensures { KeepsSeat board.now seat result.0 }
{
    let mut rises = true;
    let mut last = 0;
    for _ in 0..20_000 {
        let advanced = board.advance(&mut seat);
        let observed = board.observe(&mut seat);
        rises = rises && last <= advanced && advanced <= observed;
        last = observed;
    }
    (seat, rises, last)
}

fn race<R: Threads + Sync>(
    rt: &R,
    board: &Board,
    first: BoardSeat,
    second: BoardSeat,
) -> (BoardSeat, (BoardSeat, bool, u64))
    requires first { IsSeatOf board.now first }
    requires second { IsSeatOf board.now second }
    requires tree { board.now.tablets ≡ split_tree }
    requires known { known_at first 0 ≢ Waiting }
    ensures first { KeepsSeat board.now first result.0 }
    ensures second { KeepsSeat board.now second result.1.0 }
{
    join(
        rt,
        move || -> BoardSeat
            requires { IsSeatOf board.now first × (board.now.tablets ≡ split_tree) × (known_at first 0 ≢ Waiting) }
            ensures { KeepsSeat board.entry.now first result }
        { hand_over(board, first) },
        move || -> (BoardSeat, bool, u64)
            requires { IsSeatOf board.now second }
            ensures { KeepsSeat board.entry.now second result.0 }
        { watch(board, second) },
    )
}

#[test]
fn the_watermark_rises_to_the_least_end_while_another_thread_raises(
    rt: HostRuntime,
) -> Result<(), Fail> {
    let (board, mut first) = Board::new(rt.alloc(), split_tree().as_slice())?;
    let second = board.split(&mut first);
    let (mut first, (second, rises, last)) = race(&rt, &board, first, second);
    assert!(rt; rises);
    assert!(rt; last <= 17);
    board.join(&mut first, second);
    assert_eq!(rt; board.advance(&mut first), 17);
    assert_eq!(rt; board.close(first), 17);
    Ok(())
}
