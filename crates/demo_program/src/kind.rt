//! What a demo program does.

/// Which instructions a demo program draws.
#[derive(Clone, Copy, Debug, PartialEq, Eq)]
pub enum DemoKind {
    /// Operations of RV64I on two registers.
    Alu,
    /// Products and quotients.
    Mul,
    /// Loads and stores of doublewords.
    Mem,
}
