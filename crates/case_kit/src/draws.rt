//! The draws of cases.

use search_model::Draws;

/// The draws of a case. The first states of two cases lie far apart.
pub fn draws_of_case(case: u64) -> Draws {
    Draws::from_number(case.wrapping_mul(0x9e37_79b9_7f4a_7c15))
}
