//! The programs of the task language, and their expressions.
ghost use Rattle.std.specs.Prelude.{◌≡◌, ◌↔◌, IsTrue, map};
ghost use Rattle.std.specs.Ordering.{on};
ghost use Rattle.std.specs.Cmp.{decided, partial_equiv_from_equiv};
ghost use Rattle.std.proofs.lemmas.Cmp.{on_equiv};
ghost use Rattle.arachne_program.specs.Program.{tree_of, source_of};
ghost use Rattle.arachne_program.specs.Same.{same_tree, same_source};
ghost use Rattle.arachne_program.specs.Value.{apply, operation_of, unit_of};
ghost use Rattle.arachne_program.specs.SameDecides.{same_tree-Decides, same_source-Decides};

/// The class of a forked thread, which says if it shares its core with other threads.
#[derive(Clone, Copy, Debug, PartialEq, Eq)]
pub enum Class {
    /// The thread runs on a core that it shares with others.
    Normal,
    /// The thread runs on a core that it has for itself.
    Exclusive,
}

/// A binary operation on unsigned numbers, modulo 2^64.
#[derive(Clone, Copy, Debug, PartialEq, Eq)]
pub enum Operation {
    Add,
    Sub,
    Mul,
    Min,
    Max,
    Xor,
    /// Yields 1 if the first number is less than the second, otherwise 0.
    Lt,
    /// Yields 1 if both numbers are equal, otherwise 0.
    Eq,
}

impl Operation {
    /// Returns the result for the operands `x` and `y`.
    #[inline(always)]
    pub fn apply(self, x: u64, y: u64) -> u64
        ensures { result ≡ apply self x y }
    {
        match self {
            Operation::Add => x.wrapping_add(y),
            Operation::Sub => x.wrapping_sub(y),
            Operation::Mul => x.wrapping_mul(y),
            Operation::Min => x.min(y),
            Operation::Max => x.max(y),
            Operation::Xor => x ^ y,
            Operation::Lt => u64::from(x < y),
            Operation::Eq => u64::from(x == y),
        }
    }
}

/// The way in which a sweep (a parallel reduction) combines its values into one.
#[derive(Clone, Copy, Debug, PartialEq, Eq)]
pub enum Reduction {
    /// The sum of the values, modulo 2^64, or 0 if there are no values.
    Sum,
    /// The product of the values, modulo 2^64, or 1 if there are no values.
    Product,
    /// The bitwise exclusive or of the values, or 0 if there are no values.
    Parity,
    /// The least of the values, or 2^64 - 1 if there are no values.
    Least,
    /// The greatest of the values, or 0 if there are no values.
    Greatest,
}

impl Reduction {
    /// Returns the operation that combines two values.
    #[inline(always)]
    pub fn operation(self) -> Operation
        ensures { result ≡ operation_of self }
    {
        match self {
            Reduction::Sum => Operation::Add,
            Reduction::Product => Operation::Mul,
            Reduction::Parity => Operation::Xor,
            Reduction::Least => Operation::Min,
            Reduction::Greatest => Operation::Max,
        }
    }

    /// Returns the result of reducing no values.
    #[inline(always)]
    pub fn unit(self) -> u64
        ensures { result ≡ unit_of self }
    {
        match self {
            Reduction::Sum | Reduction::Parity | Reduction::Greatest => 0,
            Reduction::Product => 1,
            Reduction::Least => u64::MAX,
        }
    }
}

#[derive(Debug, Drop)]
pub enum Expr {
    Num(u64),
    /// A variable. The number is its index among the bound variables, with the oldest at 0.
    Var(u64),
    /// The number of items of the array of this number.
    Len(u64),
    /// The item at the index that the expression yields, in the array of this number, or 0 if there is no such item.
    Item(u64, Box<Expr>),
    Binary(Operation, Box<Expr>, Box<Expr>),
    /// A conditional: the second expression if the first yields a value other than 0, otherwise the third.
    If(Box<Expr>, Box<Expr>, Box<Expr>),
    /// The value of the second expression, in which the newest variable has the value of the first.
    Let(Box<Expr>, Box<Expr>),
    /// Adds the first expression's value to the ledger (shared sum) of this number. The result is the second's value.
    Tally(u64, Box<Expr>, Box<Expr>),
    /// Evaluates the expression while the thread holds the lock of this number.
    Hold(u64, Box<Expr>),
    /// A fork. The child thread evaluates the first expression, while the parent evaluates the second. After the join,
    /// the parent evaluates the third, in which the two newest variables are the values of the first two.
    Fork(Class, Box<Expr>, Box<Expr>, Box<Expr>),
    /// A sequential loop over the range from the first value to the second, which is excluded. The third expression is
    /// the initial value. In the body, the fourth, the newest variables are the current number and the value so far.
    Fold(Box<Expr>, Box<Expr>, Box<Expr>, Box<Expr>),
    /// A reduction over the range from the first value to the second, which is excluded. The last expression is the
    /// body, in which the newest variable is the current number. A range longer than the second field, the *grain*, is
    /// halved, and a child thread reduces the left half.
    Sweep(Reduction, u64, Box<Expr>, Box<Expr>, Box<Expr>),
}

/// A program: its read-only arrays, its numbers of ledgers (shared sums) and locks, and its main expression.
#[derive(Debug, Drop)]
pub struct Program {
    pub arrays: Vec<Vec<u64>>,
    pub ledgers: u8,
    pub locks: u8,
    pub root: Expr,
}

impl Expr {
    fn is_same(&self, other: &Expr) -> bool
        ensures { IsTrue result ↔ (tree_of self.now ≡ tree_of other.now) }
    {
        match (self, other) {
            (Expr::Num(n), Expr::Num(m))
            | (Expr::Var(n), Expr::Var(m))
            | (Expr::Len(n), Expr::Len(m)) => n == m,
            (Expr::Item(n, a), Expr::Item(m, x)) | (Expr::Hold(n, a), Expr::Hold(m, x)) => {
                n == m && a.is_same(x)
            }
            (Expr::Binary(operation, a, b), Expr::Binary(other, x, y)) => {
                operation == other && a.is_same(x) && b.is_same(y)
            }
            (Expr::If(a, b, c), Expr::If(x, y, z)) => a.is_same(x) && b.is_same(y) && c.is_same(z),
            (Expr::Let(a, b), Expr::Let(x, y)) => a.is_same(x) && b.is_same(y),
            (Expr::Tally(n, a, b), Expr::Tally(m, x, y)) => n == m && a.is_same(x) && b.is_same(y),
            (Expr::Fork(class, a, b, c), Expr::Fork(kind, x, y, z)) => {
                class == kind && a.is_same(x) && b.is_same(y) && c.is_same(z)
            }
            (Expr::Fold(a, b, c, d), Expr::Fold(w, x, y, z)) => {
                a.is_same(w) && b.is_same(x) && c.is_same(y) && d.is_same(z)
            }
            (Expr::Sweep(reduction, grain, a, b, c), Expr::Sweep(kind, size, x, y, z)) => {
                reduction == kind && grain == size && a.is_same(x) && b.is_same(y) && c.is_same(z)
            }
            _ => false,
        }
    }
}

impl PartialEq for Expr {
    ghost eq = { on tree_of same_tree };

    ghost laws = { partial_equiv_from_equiv (on_equiv tree_of (decided same_tree same_tree-Decides)) };

    fn eq(&self, other: &Expr) -> bool
        ensures eq { result ≡ same_tree (tree_of self.now) (tree_of other.now) }
        ensures same { IsTrue result ↔ (tree_of self.now ≡ tree_of other.now) }
    {
        self.is_same(other)
    }
}

impl Eq for Expr {
    ghost laws = { on_equiv tree_of (decided same_tree same_tree-Decides) };
}

fn are_same_arrays(some: &[Vec<u64>], others: &[Vec<u64>]) -> bool
    ensures { IsTrue result ↔ (map (λ array. array.items) some.now ≡ map (λ array. array.items) others.now) }
{
    some == others
}

impl Program {
    fn is_same(&self, other: &Program) -> bool
        ensures { IsTrue result ↔ (source_of self.now ≡ source_of other.now) }
    {
        if self.ledgers != other.ledgers || self.locks != other.locks {
            return false;
        }
        are_same_arrays(self.arrays.as_slice(), other.arrays.as_slice())
            && self.root.is_same(&other.root)
    }
}

impl PartialEq for Program {
    ghost eq = { on source_of same_source };

    ghost laws = { partial_equiv_from_equiv (on_equiv source_of (decided same_source same_source-Decides)) };

    fn eq(&self, other: &Program) -> bool
        ensures eq { result ≡ same_source (source_of self.now) (source_of other.now) }
        ensures same { IsTrue result ↔ (source_of self.now ≡ source_of other.now) }
    {
        self.is_same(other)
    }
}

impl Eq for Program {
    ghost laws = { on_equiv source_of (decided same_source same_source-Decides) };
}
