// Forms and multipliers with their answers, worked out by hand.
ghost use Rattle.std.specs.Prelude.{◌↔◌, IsTrue};
ghost use Rattle.lin_certs.specs.LinForm.{HaveOneWidth};

use crate::{LinForm, LinSaid, lin_check};
use std::alloc::{AllocError, Global};
use std::process::Abort;
use std::test::Fail;
use std::vec::Vec;

/// A form's constant and coefficients, and its multiplier.
#[derive(Clone, Copy)]
struct Row(i128, &'static [i128], u64);

const MAX: i128 = 170141183460469231731687303715884105727;

const MIN: i128 = -170141183460469231731687303715884105728;
/// 2^126
const HALF: i128 = 85070591730234615865843651857942052864;

const REFUTED: &[&[Row]] = &[
    // 1 <= 0
    &[Row(1, &[], 1)],
    // x + 1 <= 0 and -x <= 0
    &[Row(1, &[1], 1), Row(0, &[-1], 1)],
    // 3 (2x - 3y + 2) + 2 (-3x - 2) + 9 y = 2
    &[
        Row(2, &[2, -3], 3),
        Row(-2, &[-3, 0], 2),
        Row(0, &[0, 1], 9),
    ],
    // What has the multiplier 0 plays no part.
    &[Row(MAX, &[MIN], 0), Row(1, &[0], 1)],
    // 2 (2^126 - 1) = 2^127 - 2
    &[Row(85070591730234615865843651857942052863, &[], 2)],
];

/// Each with the sum of its constants.
const CONSTANTS: &[(&[Row], i128)] = &[
    (&[], 0),
    (&[Row(0, &[], 1)], 0),
    (&[Row(1, &[], 0)], 0),
    // x <= 0 and -x <= 0
    (&[Row(0, &[1], 1), Row(0, &[-1], 1)], 0),
    // 3 (2x - 3y + 1) + 2 (-3x - 2) + 9 y = -1
    (
        &[
            Row(1, &[2, -3], 3),
            Row(-2, &[-3, 0], 2),
            Row(0, &[0, 1], 9),
        ],
        -1,
    ),
    // 2 * -2^126 = -2^127
    (&[Row(-85070591730234615865843651857942052864, &[], 2)], MIN),
    (&[Row(MIN, &[], 1), Row(MAX, &[], 1)], -1),
];

/// Each with the first variable that is left, and the sum of its coefficients.
const LEFT: &[(&[Row], u64, i128)] = &[
    // 4 - 10 = -6 comes before 9 + 2 = 11.
    (&[Row(7, &[0, 4, 9], 1), Row(0, &[0, -5, 1], 2)], 1, -6),
    (&[Row(7, &[1, 0], 1), Row(0, &[1, 1], 0)], 0, 1),
    // (2^64 - 1) * 2^63 = 2^127 - 2^63
    (
        &[Row(0, &[9223372036854775808], 18446744073709551615)],
        0,
        170141183460469231722463931679029329920,
    ),
    (&[Row(0, &[MAX], 1), Row(0, &[0], 1)], 0, MAX),
    (&[Row(0, &[MIN], 1), Row(0, &[0], 1)], 0, MIN),
];

/// Each with the first form at which a column leaves i128.
const WIDE: &[(&[Row], u64)] = &[
    // 2 * 2^126 = 2^127, and 2 (-2^126 - 1) = -2^127 - 2
    (&[Row(HALF, &[], 2)], 0),
    (&[Row(-85070591730234615865843651857942052865, &[], 2)], 0),
    // (2^64 - 1) * (2^63 + 1) = 2^127 + 2^63 - 1
    (&[Row(0, &[9223372036854775809], 18446744073709551615)], 0),
    // The product fits, and the sum does not.
    (&[Row(0, &[MAX], 1), Row(0, &[1], 1)], 1),
    (&[Row(0, &[MIN], 1), Row(0, &[-1], 1)], 1),
    // The sum of all would fit.
    (&[Row(MAX, &[], 1), Row(1, &[], 1), Row(-1, &[], 1)], 1),
    // The variables leave i128 at the forms 2 and 1, and the constants at 3.
    (
        &[
            Row(MAX, &[MAX, HALF], 1),
            Row(0, &[0, HALF], 1),
            Row(0, &[1, 0], 1),
            Row(1, &[0, 0], 1),
        ],
        1,
    ),
];

/// Whether all forms have as many coefficients as the first.
fn have_one_width(forms: &[LinForm]) -> bool
    ensures { IsTrue result ↔ HaveOneWidth forms.now }
{
    let width = forms.first().map_or(0, |form| form.coeffs.len());
    forms.iter().all(|form| form.coeffs.len() == width)
}

fn said(rt: &impl Abort, alloc: Global, rows: &[Row]) -> Result<LinSaid, AllocError> {
    let mut forms = Vec::new(alloc);
    let mut by = Vec::new(alloc);
    for Row(constant, coeffs, multiplier) in rows {
        forms.push(LinForm {
            constant: *constant,
            coeffs: coeffs.to_vec(alloc)?,
        })?;
        by.push(*multiplier)?;
    }
    assert!(rt; forms.len() == by.len());
    assert!(rt; have_one_width(&forms));
    Ok(lin_check(&forms, &by))
}

#[test]
fn forms_have_their_answers(rt: HostRuntime) -> Result<(), Fail> {
    for rows in REFUTED {
        assert_eq!(rt; said(&rt, rt.alloc(), rows)?, LinSaid::Refutes);
    }
    for (rows, sum) in CONSTANTS {
        assert_eq!(rt;
            said(&rt, rt.alloc(), rows)?,
            LinSaid::Not {
                variable: None,
                sum: *sum
            }
        );
    }
    for (rows, variable, sum) in LEFT {
        assert_eq!(rt;
            said(&rt, rt.alloc(), rows)?,
            LinSaid::Not {
                variable: Some(*variable),
                sum: *sum
            }
        );
    }
    for (rows, index) in WIDE {
        assert_eq!(rt;
            said(&rt, rt.alloc(), rows)?,
            LinSaid::Wide { index: *index }
        );
    }
    Ok(())
}
