//! The seven rules of the reel on a board: who is in force, and by which way, after each addition.

use calculators::quantities::Quantities;
use keyed::seven;
use meaning::write_at;
use placing::board::Board;
use placing::rules::RULES;
use rankings::Classes;
use ranks::Ranks;
use std::io;

/// Adds the seven rules in the order of their numbers, and prints the board after each.
// A board is handed ranks, and its caller keeps the strengths that they are made of. It writes to the terminal; an addition and a
// board print by their `Display`.
pub fn print_board(rt: &HostRuntime) -> io::Result<()> {
    println!(rt; "the seven rules on a board:")?;
    let mut board = Board::empty();
    let mut classes = [0; RULES];
    for (r, rule) in (0..64u8).zip(&seven::RULES) {
        let record = rule.record(r);
        write_at(&mut classes, usize::from(r), record.strength);
        let ranks = Ranks::new(&Classes, &classes, board.standing_with(r));
        match board.add(&ranks, r, record.rule(&Quantities)) {
            Ok(added) => println!(rt; "  rule {r} {added}{board}")?,
            Err(_) => println!(rt; "  rule {r} refused{board}")?,
        }
    }
    Ok(())
}
