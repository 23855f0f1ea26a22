//! Rules put on a desk one by one: the board after each addition, and at last the plan, the held rules and the cells.

use crate::desk::Desk;
use figures::blanks::Cause;
use keyed::Keyed;
use meaning::Calculator;
use std::fmt::Display;
use std::io;

/// Prints a cell: its figure, or why it is blank.
fn print_cell<F: Display + Copy>(
    rt: &HostRuntime,
    cell: u8,
    figure: F,
    cause: Option<Cause>,
) -> io::Result<()> {
    match cause {
        Some(cause) => println!(rt; "cell {cell} blank {cause}"),
        None => println!(rt; "cell {cell} {figure}"),
    }
}

/// Prints the plan, the held rules and the cells of a desk.
fn print_desk<C: Calculator, const N: usize>(rt: &HostRuntime, desk: &Desk<C, N>) -> io::Result<()>
where
    C::Figure: Display,
{
    println!(rt; "plan{}", desk.plan.order)?;
    println!(rt; "held{}", desk.plan.held)?;
    for (cell, figure) in (0..64u8).zip(desk.figures.iter()) {
        print_cell(rt, cell, *figure, desk.blanks.cause(cell))?;
    }
    Ok(())
}

/// Adds rules to a desk in the order of their numbers, prints the board after each, and at last the figures.
pub fn key_all<C: Calculator, const N: usize>(
    rt: &HostRuntime,
    desk: &mut Desk<C, N>,
    rules: &[Keyed<C::Figure>],
) -> io::Result<()>
where
    C::Figure: Display,
{
    for (r, rule) in (0..64u8).zip(rules) {
        match desk.add(r, rule) {
            Ok(added) => println!(rt; "  rule {r} {added}{}", desk.board)?,
            Err(_) => println!(rt; "  rule {r} refused{}", desk.board)?,
        }
    }
    print_desk(rt, desk)
}
