//! The steps of a sum plan.

/// A step of a sum plan: the powers of the table above, the images of the generators, the product
/// of these, and the polynomials of the new table.
#[derive(Clone, Copy, PartialEq, Eq, Debug, Drop)]
pub enum SumStep {
    Power,
    Image,
    Product,
    Last,
}
