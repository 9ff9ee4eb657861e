// Calls the exported functions by numbers and prints each answer whole: with numbers that name no case of their enumeration, alone
// and beside every other refusal, and with settings that settle; compare/exports.py works every line out afresh.
#![tactic(auto)]

ghost use Rattle.std.specs.Prelude.{◌<◌, ◌≤◌};

use cases::case;
use cases::case::Case;

mod call;

// An enumeration of the settings.
#[derive(Clone, Copy)]
enum Field {
    Matrix,
    Range,
    Subsampling,
    Order,
    Packing,
    ByteOrder,
    Channels,
}

// All of them, as the settings' fields come.
const FIELDS: [Field; 7] = [
    Field::Matrix,
    Field::Range,
    Field::Subsampling,
    Field::Order,
    Field::Packing,
    Field::ByteOrder,
    Field::Channels,
];

impl Field {
    // The last number that names a case.
    fn last(self) -> u32
        ensures { result ≤ 5 }
    {
        match self {
            Field::Matrix => 5,
            Field::Subsampling => 2,
            Field::Channels => 3,
            Field::Range | Field::Order | Field::Packing | Field::ByteOrder => 1,
        }
    }

    // The case with this enumeration's number set.
    fn with_number(self, c: Case, number: u32) -> Case {
        match self {
            Field::Matrix => Case {
                matrix: number,
                ..c
            },
            Field::Range => Case { range: number, ..c },
            Field::Subsampling => Case {
                subsampling: number,
                ..c
            },
            Field::Order => Case { order: number, ..c },
            Field::Packing => Case {
                packing: number,
                ..c
            },
            Field::ByteOrder => Case {
                byte_order: number,
                ..c
            },
            Field::Channels => Case {
                channels: number,
                ..c
            },
        }
    }

    // The case with the number one past the last.
    fn unnamed(self, c: Case) -> Case {
        self.with_number(c, self.last() + 1)
    }
}

// Document 01's frame with what makes one refusal due: 1, 2, 3, 7, 8, 9 and 10.
fn refused() -> [Case; 7] {
    let c = case::base();
    [
        Case { depth: 9, ..c },
        Case { precision: 14, ..c },
        Case {
            matrix: case::ZERO_PAIR,
            ..c
        },
        Case { width: 0, ..c },
        Case {
            luma_stride: 2,
            ..c
        },
        Case { chroma: 5, ..c },
        Case {
            at: 5,
            sample: 1024,
            ..c
        },
    ]
}

// A number that names no case, alone and beside each refusal.
fn run_field(field: Field) {
    let c = case::base();
    call::run(field.with_number(c, field.last()));
    call::run(field.with_number(c, u32::MAX));
    call::run(field.unnamed(c));
    for c in refused() {
        call::run(field.unnamed(c));
    }
}

fn run_fields() {
    for field in FIELDS {
        run_field(field);
    }
}

// Each refusal by itself.
fn run_refusals() {
    for c in refused() {
        call::run(c);
    }
}

// Two numbers that name no case.
fn run_each_two() {
    for (first, second) in FIELDS.iter().zip(&FIELDS[1..]) {
        call::run(second.unnamed(first.unnamed(case::base())));
    }
}

// Every matrix and range, the depth and precision changing from call to call.
fn run_settled(t: u32)
    requires { t < 24 }
{
    let c = Case {
        depth: 10 + t % 7,
        precision: 13 - t % 5,
        matrix: t % 6,
        range: t / 6 % 2,
        subsampling: t % 3,
        channels: t % 4,
        seed: t + 7,
        ..case::base()
    };
    call::run(case::laid(c, 2, 2, 1));
}

fn run_all_settled() {
    for t in 0..24 {
        run_settled(t);
    }
}

fn main() {
    run_fields();
    run_refusals();
    run_each_two();
    run_all_settled();
}
