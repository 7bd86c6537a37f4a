// The amounts, pictures and fields that the cases are made of.
use numbers::{Amount, Picture};

pub const AMOUNTS: [Amount; 14] = [
    Amount {
        count: 0,
        picture: Picture {
            digits: 1,
            decimals: 0,
        },
    },
    Amount {
        count: 1,
        picture: Picture {
            digits: 1,
            decimals: 0,
        },
    },
    Amount {
        count: -1,
        picture: Picture {
            digits: 1,
            decimals: 0,
        },
    },
    Amount {
        count: 8,
        picture: Picture {
            digits: 2,
            decimals: 0,
        },
    },
    Amount {
        count: 5,
        picture: Picture {
            digits: 2,
            decimals: 1,
        },
    },
    Amount {
        count: -15,
        picture: Picture {
            digits: 3,
            decimals: 1,
        },
    },
    Amount {
        count: 150,
        picture: Picture {
            digits: 5,
            decimals: 2,
        },
    },
    Amount {
        count: 99999,
        picture: Picture {
            digits: 5,
            decimals: 2,
        },
    },
    Amount {
        count: 1,
        picture: Picture {
            digits: 3,
            decimals: 2,
        },
    },
    Amount {
        count: -3,
        picture: Picture {
            digits: 4,
            decimals: 3,
        },
    },
    Amount {
        count: 999999999,
        picture: Picture {
            digits: 9,
            decimals: 0,
        },
    },
    Amount {
        count: -999999999,
        picture: Picture {
            digits: 9,
            decimals: 0,
        },
    },
    Amount {
        count: 999999999,
        picture: Picture {
            digits: 9,
            decimals: 9,
        },
    },
    Amount {
        count: -123456789,
        picture: Picture {
            digits: 9,
            decimals: 4,
        },
    },
];

// The pictures of results.
pub const RESULTS: [Picture; 6] = [
    Picture {
        digits: 1,
        decimals: 0,
    },
    Picture {
        digits: 5,
        decimals: 2,
    },
    Picture {
        digits: 9,
        decimals: 0,
    },
    Picture {
        digits: 9,
        decimals: 9,
    },
    Picture {
        digits: 9,
        decimals: 4,
    },
    Picture {
        digits: 3,
        decimals: 3,
    },
];

// The picture of a number of some digits, none of them decimals.
macro_rules! whole {
    ($digits:expr) => {
        Picture {
            digits: $digits,
            decimals: 0,
        }
    };
}

// Columns that are to be read as a number of some digits, none of them decimals.
#[derive(Clone, Copy)]
pub struct Field {
    pub columns: &'static [u8],
    pub picture: Picture,
}

pub const FIELDS: [Field; 24] = [
    Field {
        columns: b"",
        picture: whole!(1),
    },
    Field {
        columns: b"1",
        picture: whole!(2),
    },
    Field {
        columns: b"12",
        picture: whole!(1),
    },
    Field {
        columns: b"5",
        picture: whole!(1),
    },
    Field {
        columns: b"}",
        picture: whole!(1),
    },
    Field {
        columns: b"R",
        picture: whole!(1),
    },
    Field {
        columns: b"999999999",
        picture: whole!(9),
    },
    Field {
        columns: b"99999999R",
        picture: whole!(9),
    },
    Field {
        columns: b"99999999I",
        picture: whole!(9),
    },
    Field {
        columns: b"        }",
        picture: whole!(9),
    },
    Field {
        columns: b"000000{",
        picture: whole!(7),
    },
    Field {
        columns: b"0012}",
        picture: whole!(5),
    },
    Field {
        columns: b"   12",
        picture: whole!(5),
    },
    Field {
        columns: b"1 2 3",
        picture: whole!(5),
    },
    Field {
        columns: b"12-",
        picture: whole!(3),
    },
    Field {
        columns: b"1.2",
        picture: whole!(3),
    },
    Field {
        columns: b"A12",
        picture: whole!(3),
    },
    Field {
        columns: b"1}2",
        picture: whole!(3),
    },
    Field {
        columns: b"     ",
        picture: whole!(5),
    },
    Field {
        columns: b"-5",
        picture: whole!(2),
    },
    Field {
        columns: b"0S",
        picture: whole!(2),
    },
    Field {
        columns: b"0@",
        picture: whole!(2),
    },
    Field {
        columns: b"0I",
        picture: whole!(2),
    },
    Field {
        columns: b"0J",
        picture: whole!(2),
    },
];
