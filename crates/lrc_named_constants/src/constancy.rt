// What is known of expressions before a run.

/// What is known of the value of an expression before a run.
#[derive(Clone, Copy)]
pub enum Constancy {
    /// The expression is not constant: a private name, `me`, `nodes` or a shared item stands in it, or in the body of a
    /// function that it calls, and so on.
    Varies,
    /// The expression is constant and has no value, since it divides by zero.
    Undefined,
    /// The expression is constant, and this is its value.
    Value(u64),
}

/// A parameter of a function, and what is known of its argument.
#[derive(Clone, Copy)]
pub struct Known<'p> {
    /// The bytes that spell the parameter.
    pub name: &'p [u8],
    pub constancy: Constancy,
}
