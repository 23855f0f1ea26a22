//! Rules keyed at a desk one by one, and the figures brought up to date: the reel's seven rules, three sums of which two
//! feed each other, and a card at the card calculator.

#![tactic(auto)]

mod desk;
mod printing;

use calculators::cards::Cards;
use calculators::quantities::Quantities;
use desk::Desk;
use keyed::{cards, ring, seven};
use printing::key_all;
use std::io;

/// Prints the three desks one after another.
fn main(rt: HostRuntime) -> io::Result<()> {
    println!(rt; "the seven rules on a board:")?;
    let mut reel: Desk<Quantities, { seven::CELLS }> = Desk::new(Quantities);
    key_all(&rt, &mut reel, &seven::RULES)?;
    println!(rt; "two sums that feed each other, and one fed from them:")?;
    let mut sums: Desk<Quantities, { ring::CELLS }> = Desk::new(Quantities);
    key_all(&rt, &mut sums, &ring::RULES)?;
    println!(rt; "a card unpacked:")?;
    let mut card: Desk<Cards, { cards::CELLS }> = Desk::new(Cards);
    key_all(&rt, &mut card, &cards::RULES)
}
