// Every operation on every pair of amounts, into every result.
use crate::answers::answer;
use crate::cases::{AMOUNTS, RESULTS};
use crate::row::Cell;
use numbers::{Amount, Picture, Rounding, Target};
use shown::Row;
use std::cmp::Ordering;
use std::io;

// An amount, and the place of its case in the table.
#[derive(Clone, Copy)]
struct Placed {
    place: usize,
    amount: Amount,
}

// Two amounts that are calculated with.
#[derive(Clone, Copy)]
struct Pair {
    a: Placed,
    b: Placed,
}

pub fn pairs(rt: &HostRuntime) -> io::Result<()> {
    for (place, amount) in AMOUNTS.into_iter().enumerate() {
        let a = Placed { place, amount };
        with_each(rt, a)?;
        from_zero(rt, a)?;
    }
    Ok(())
}

fn with_each(rt: &HostRuntime, a: Placed) -> io::Result<()> {
    for (place, amount) in AMOUNTS.into_iter().enumerate() {
        let b = Placed { place, amount };
        order(rt, Pair { a, b })?;
        into_each(rt, Pair { a, b })?;
    }
    Ok(())
}

fn order(rt: &HostRuntime, Pair { a, b }: Pair) -> io::Result<()> {
    rt.println(Row::<_, b' '>(&[
        Cell::Word("compare"),
        Cell::Place(a.place),
        Cell::Place(b.place),
        Cell::Word(sign(a.amount.compare(b.amount))),
    ]))
}

fn sign(order: Ordering) -> &'static str {
    match order {
        Ordering::Less => "<",
        Ordering::Equal => "=",
        Ordering::Greater => ">",
    }
}

fn into_each(rt: &HostRuntime, pair: Pair) -> io::Result<()> {
    for (k, picture) in RESULTS.into_iter().enumerate() {
        for rounding in [Rounding::Cut, Rounding::HalfAdjust] {
            four(rt, pair, k, Target { picture, rounding })?;
        }
    }
    Ok(())
}

// The sum, the difference, the product and the quotient of a pair, behind the places of the case in its tables.
fn four(rt: &HostRuntime, Pair { a, b }: Pair, k: usize, into: Target) -> io::Result<()> {
    let word = match into.rounding {
        Rounding::Cut => "cut",
        Rounding::HalfAdjust => "half",
    };
    rt.println(Row::<_, b' '>(&[
        Cell::Place(a.place),
        Cell::Place(b.place),
        Cell::Place(k),
        Cell::Word(word),
        answer(a.amount.add(b.amount, into)),
        answer(a.amount.subtract(b.amount, into)),
        answer(a.amount.multiply(b.amount, into)),
        answer(a.amount.divide(b.amount, into)),
    ]))
}

// An amount added to zero, and taken from it.
fn from_zero(rt: &HostRuntime, a: Placed) -> io::Result<()> {
    let picture = Picture {
        digits: 5,
        decimals: 2,
    };
    let into = Target {
        picture,
        rounding: Rounding::Cut,
    };
    let zero = Amount::zero(picture);
    rt.println(Row::<_, b' '>(&[
        Cell::Word("zero"),
        Cell::Place(a.place),
        answer(zero.add(a.amount, into)),
        answer(zero.subtract(a.amount, into)),
    ]))
}
