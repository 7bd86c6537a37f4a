// The operations of calculation cards: how each is punched, and which entries of its card it takes.
#![tactic(auto)]

ghost use Rattle.std.specs.Prelude.{◌≡◌, Some};
ghost use Rattle.operations.specs.Operations.{operation_of, takes_of, word_of};

use std::fmt;

#[derive(Clone, Copy, PartialEq, Eq, Debug)]
pub enum Operation {
    Add,
    Sub,
    Mult,
    Div,
    ZAdd,
    ZSub,
    Comp,
    Move,
    SetOn,
    SetOf,
}

// What an operation takes: the entries that have to be filled, whether it may be half-adjusted, and whether
// indicators may stand on its card or have to.
#[derive(Clone, Copy)]
pub struct Takes {
    pub factor1: bool,
    pub factor2: bool,
    pub result: bool,
    pub half_adjust: bool,
    pub tells: bool,
    pub sets: bool,
}

// The operation that five columns name. An Option, and no TryFrom: an error would say nothing.
pub fn read_operation(columns: &[u8]) -> Option<Operation>
    ensures { result ≡ operation_of columns.now }
{
    match columns {
        b"ADD  " => Some(Operation::Add),
        b"SUB  " => Some(Operation::Sub),
        b"MULT " => Some(Operation::Mult),
        b"DIV  " => Some(Operation::Div),
        b"Z-ADD" => Some(Operation::ZAdd),
        b"Z-SUB" => Some(Operation::ZSub),
        b"COMP " => Some(Operation::Comp),
        b"MOVE " => Some(Operation::Move),
        b"SETON" => Some(Operation::SetOn),
        b"SETOF" => Some(Operation::SetOf),
        _ => None,
    }
}

const ARITHMETIC: Takes = Takes {
    factor1: true,
    factor2: true,
    result: true,
    half_adjust: true,
    tells: true,
    sets: false,
};

// Z-ADD and Z-SUB: factor 1 counts 0.
const ZEROING: Takes = Takes {
    factor1: false,
    factor2: true,
    result: true,
    half_adjust: true,
    tells: true,
    sets: false,
};

const COMPARING: Takes = Takes {
    factor1: true,
    factor2: true,
    result: false,
    half_adjust: false,
    tells: true,
    sets: false,
};

const MOVING: Takes = Takes {
    factor1: false,
    factor2: true,
    result: true,
    half_adjust: false,
    tells: false,
    sets: false,
};

const SETTING: Takes = Takes {
    factor1: false,
    factor2: false,
    result: false,
    half_adjust: false,
    tells: true,
    sets: true,
};

impl Operation {
    // The entries that the operation takes.
    pub fn takes(self) -> Takes
        ensures { result ≡ takes_of self }
    {
        match self {
            Operation::Add | Operation::Sub | Operation::Mult | Operation::Div => ARITHMETIC,
            Operation::ZAdd | Operation::ZSub => ZEROING,
            Operation::Comp => COMPARING,
            Operation::Move => MOVING,
            Operation::SetOn | Operation::SetOf => SETTING,
        }
    }
}

// The word that the operation is punched by.
impl fmt::Display for Operation {
    ghost output = { λ o. Some (word_of o) };

    fn fmt<W: fmt::Write>(&self, f: &mut fmt::Formatter<W>) -> fmt::Result {
        f.write_str(match self {
            Operation::Add => "ADD",
            Operation::Sub => "SUB",
            Operation::Mult => "MULT",
            Operation::Div => "DIV",
            Operation::ZAdd => "Z-ADD",
            Operation::ZSub => "Z-SUB",
            Operation::Comp => "COMP",
            Operation::Move => "MOVE",
            Operation::SetOn => "SETON",
            Operation::SetOf => "SETOF",
        })
    }
}
