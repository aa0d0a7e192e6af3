//! Evaluates a program on one kernel thread: its value, the sums of its ledgers, and how often each of its threads held
//! each lock.
ghost use Rattle.std.specs.Prelude.{◌≡◌, ◌+◌, ◌^◌, ◌<◌, [], ◌∷◌, ◌++◌, IfOk, length, slice_index};
ghost use Rattle.arachne_program.specs.declared.program.Class.{Class};
ghost use Rattle.arachne_program.specs.declared.program.Class.TheVariants.{Normal};
ghost use Rattle.arachne_program.specs.Tree.{Fork};
ghost use Rattle.arachne_program.specs.Program.{tree_of, source_of};
ghost use Rattle.arachne_program.specs.Value.{array_at, with_newest};
ghost use Rattle.arachne_program.specs.Effects.{tallied};
ghost use Rattle.arachne_program.specs.Checked.{IsChecked};
ghost use Rattle.arachne_program.specs.Meaning.{meaning_of};
ghost use Rattle.arachne_lang.specs.Evaluation.{Gains, IsFresh, MayFork, MaySplit, HasLines, IsEvaluated, IsFolded, IsReduced, IsHalved, IsRun, IsHalfRun};

use arachne_program::{Expr, Line, Meaning, Name, Program, Reduction, Sequence};
use std::alloc::{AllocError, Global};

/// The name and the counts of the thread that is being evaluated, without the counts of its children.
#[derive(Drop)]
struct Own {
    name: Name,
    /// For each lock, the number of times that the thread held it, modulo 2^64.
    holds: Vec<u64>,
    /// The number of children that the thread has forked, which is the next child's number.
    forks: u64,
}

impl Own {
    fn new(alloc: Global, name: Name, locks: u8) -> Result<Own, AllocError>
        ensures { IfOk result (IsFresh locks name) }
    {
        Ok(Own {
            name,
            holds: vec![in alloc; 0; usize::from(locks)]?,
            forks: 0,
        })
    }

    fn fork(&mut self, alloc: Global) -> Result<Name, AllocError>
        requires { self.old.forks + 1 < 2 ^ 64 }
        ensures name { IfOk result (λ name. name ≡ self.old.name ++ self.old.forks ∷ []) }
        ensures counted { IfOk result (λ _. self.new ≡ record self.old { forks = self.old.forks + 1 }) }
    {
        let name = self.name.child(alloc, self.forks)?;
        self.forks += 1;
        Ok(name)
    }

    fn into_line(self) -> Line
        ensures { result ≡ record { name = self.name; holds = self.holds.items } }
    {
        Line {
            name: self.name,
            holds: Sequence::from(self.holds),
        }
    }
}

/// Returns an empty line, which the thread's line replaces when the thread has ended.
fn unwritten_line(alloc: Global) -> Line {
    Line {
        name: Name::root(alloc),
        holds: Sequence::from(Vec::new(alloc)),
    }
}

#[derive(Drop)]
struct Shared {
    /// The variables of the thread that is being evaluated, the oldest first.
    environment: Vec<u64>,
    /// For each ledger, the sum of the amounts that were added to it so far, modulo 2^64.
    sums: Vec<u64>,
    /// For each thread that has begun, a line with its name and lock counts, empty until the thread has ended.
    lines: Vec<Line>,
}

#[derive(Clone, Copy)]
struct Reducer<'p> {
    reduction: Reduction,
    grain: u64,
    body: &'p Expr,
}

/// Adds `amount`, modulo 2^64, to the number at index `place`, if there is one.
fn add_at(numbers: &mut [u64], place: u64, amount: u64)
    ensures { Gains (tallied place amount).sums numbers.old numbers.new }
{
    if place >= numbers.len() as u64 {
        return;
    }
    let place = place as usize;
    numbers[place] = numbers[place].wrapping_add(amount);
}

/// An evaluator of a program's expressions, by plain recursion on one kernel thread.
///
/// Its functions return `Err` only if memory was refused; the sums and lines in `Shared` are then incomplete.
#[derive(Clone, Copy)]
struct Evaluator<'p> {
    alloc: Global,
    program: &'p Program,
}

impl Evaluator<'_> {
    /// Returns an item of an array, or 0 if there is no such item.
    fn item(&self, array: u64, index: u64) -> u64
        ensures { result ≡ slice_index (array_at (source_of self.now.program.now).arrays array) index }
    {
        match self.program.arrays.get(array as usize) {
            Some(items) => items.get(index as usize).copied().unwrap_or(0),
            None => 0,
        }
    }

    fn length(&self, array: u64) -> u64
        ensures { result ≡ length (array_at (source_of self.now.program.now).arrays array) }
    {
        match self.program.arrays.get(array as usize) {
            Some(items) => items.len() as u64,
            None => 0,
        }
    }

    /// Evaluates `expr` as a new thread of the program.
    ///
    /// Appends the thread's line to `shared.lines`, and then those of its descendants.
    #[cycle(evaluation)]
    fn run(&self, shared: &mut Shared, name: Name, expr: &Expr) -> Result<u64, AllocError>
        requires { MayFork (tree_of expr.now) 0 shared.old.lines.items }
        ensures value { IfOk result (λ value.
            IsRun (source_of self.now.program.now) (tree_of expr.now) name shared.old value shared.new) }
        ensures lines { IfOk result (λ _. length shared.old.lines.items < length shared.new.lines.items) }
    {
        let place = shared.lines.len();
        shared.lines.push(unwritten_line(self.alloc))?;
        let mut own = Own::new(self.alloc, name, self.program.locks)?;
        let value = self.value(shared, &mut own, expr)?;
        shared.lines[place] = own.into_line();
        Ok(value)
    }

    /// Reduces the numbers from `first` to `first + n - 1` as a new thread of the program.
    ///
    /// Appends the thread's line to `shared.lines`, and then those of its descendants.
    #[cycle(evaluation)]
    fn run_half(
        &self,
        shared: &mut Shared,
        name: Name,
        reducer: Reducer,
        first: u64,
        n: u64,
    ) -> Result<u64, AllocError>
        requires numbers { first + n < 2 ^ 64 }
        requires forks { MaySplit (tree_of reducer.body.now) n 0 shared.old.lines.items }
        ensures value { IfOk result (λ value.
            IsHalfRun (source_of self.now.program.now) reducer.entry.reduction reducer.entry.grain (tree_of reducer.entry.body.now) first n
            name shared.old value shared.new) }
        ensures lines { IfOk result (λ _. length shared.old.lines.items < length shared.new.lines.items) }
    {
        let place = shared.lines.len();
        shared.lines.push(unwritten_line(self.alloc))?;
        let mut own = Own::new(self.alloc, name, self.program.locks)?;
        let value = self.halves(shared, &mut own, reducer, first, n)?;
        shared.lines[place] = own.into_line();
        Ok(value)
    }

    /// Evaluates `expr` in the thread whose counts are `own`. Leaves the thread's variables unchanged.
    #[cycle(evaluation)]
    fn value(&self, shared: &mut Shared, own: &mut Own, expr: &Expr) -> Result<u64, AllocError>
        requires { MayFork (tree_of expr.now) own.old.forks shared.old.lines.items }
        ensures value { IfOk result (λ value.
            IsEvaluated (source_of self.now.program.now) (tree_of expr.now) shared.old.environment.items
            own.old shared.old value own.new shared.new) }
        ensures lines { IfOk result (λ _. HasLines own.old shared.old own.new shared.new) }
    {
        match expr {
            Expr::Num(n) => Ok(*n),
            Expr::Var(k) => Ok(shared.environment.get(*k as usize).copied().unwrap_or(0)),
            Expr::Len(array) => Ok(self.length(*array)),
            Expr::Item(array, index) => Ok(self.item(*array, self.value(shared, own, index)?)),
            Expr::Binary(operation, a, b) => {
                let x = self.value(shared, own, a)?;
                Ok(operation.apply(x, self.value(shared, own, b)?))
            }
            Expr::If(condition, first, second) => match self.value(shared, own, condition)? {
                0 => self.value(shared, own, second),
                _ => self.value(shared, own, first),
            },
            Expr::Let(bound, body) => {
                let newest = self.value(shared, own, bound)?;
                self.body(shared, own, newest, body)
            }
            Expr::Tally(ledger, amount, body) => {
                let amount = self.value(shared, own, amount)?;
                add_at(shared.sums.as_mut_slice(), *ledger, amount);
                self.value(shared, own, body)
            }
            Expr::Hold(lock, body) => {
                add_at(own.holds.as_mut_slice(), *lock, 1);
                self.value(shared, own, body)
            }
            Expr::Fork(_, child, during, after) => self.fork(shared, own, child, during, after),
            Expr::Fold(from, to, first, body) => {
                let low = self.value(shared, own, from)?;
                let high = self.value(shared, own, to)?;
                let start = self.value(shared, own, first)?;
                self.turns(shared, own, low, high.saturating_sub(low), start, body)
            }
            Expr::Sweep(reduction, grain, from, to, body) => {
                let reducer = Reducer {
                    reduction: *reduction,
                    grain: *grain,
                    body,
                };
                let low = self.value(shared, own, from)?;
                let high = self.value(shared, own, to)?;
                self.halves(shared, own, reducer, low, high.saturating_sub(low))
            }
        }
    }

    #[cycle(evaluation)]
    fn body(
        &self,
        shared: &mut Shared,
        own: &mut Own,
        newest: u64,
        expr: &Expr,
    ) -> Result<u64, AllocError>
        requires { MayFork (tree_of expr.now) own.old.forks shared.old.lines.items }
        ensures value { IfOk result (λ value.
            IsEvaluated (source_of self.now.program.now) (tree_of expr.now)
            (with_newest shared.old.environment.items newest) own.old shared.old value own.new shared.new) }
        ensures lines { IfOk result (λ _. HasLines own.old shared.old own.new shared.new) }
    {
        let variables = shared.environment.len();
        shared.environment.push(newest)?;
        let value = self.value(shared, own, expr)?;
        shared.environment.truncate(variables);
        Ok(value)
    }

    /// Evaluates `during`, then `child`, so that the threads' lines are in the order of the result, and then `after`. A
    /// separate function, so that `value` doesn't initialise memory for the name at each call.
    #[cycle(evaluation)]
    fn fork(
        &self,
        shared: &mut Shared,
        own: &mut Own,
        child: &Expr,
        during: &Expr,
        after: &Expr,
    ) -> Result<u64, AllocError>
        requires { MayFork (Fork Normal (tree_of child.now) (tree_of during.now) (tree_of after.now))
            own.old.forks shared.old.lines.items }
        ensures value { IfOk result (λ value. (class : Class) →
            IsEvaluated (source_of self.now.program.now)
            (Fork class (tree_of child.now) (tree_of during.now) (tree_of after.now))
            shared.old.environment.items own.old shared.old value own.new shared.new) }
        ensures lines { IfOk result (λ _. HasLines own.old shared.old own.new shared.new) }
    {
        let name = own.fork(self.alloc)?;
        let own_value = self.value(shared, own, during)?;
        let child_value = self.run(shared, name, child)?;
        self.after(shared, own, child_value, own_value, after)
    }

    #[cycle(evaluation)]
    fn after(
        &self,
        shared: &mut Shared,
        own: &mut Own,
        first: u64,
        second: u64,
        expr: &Expr,
    ) -> Result<u64, AllocError>
        requires { MayFork (tree_of expr.now) own.old.forks shared.old.lines.items }
        ensures value { IfOk result (λ value.
            IsEvaluated (source_of self.now.program.now) (tree_of expr.now)
            (with_newest (with_newest shared.old.environment.items first) second)
            own.old shared.old value own.new shared.new) }
        ensures lines { IfOk result (λ _. HasLines own.old shared.old own.new shared.new) }
    {
        let variables = shared.environment.len();
        shared.environment.push(first)?;
        shared.environment.push(second)?;
        let value = self.value(shared, own, expr)?;
        shared.environment.truncate(variables);
        Ok(value)
    }

    /// Evaluates the iterations of a fold (a sequential loop) for the numbers from `from` to `from + n - 1`, with the
    /// initial value `first`.
    ///
    /// In each iteration the two newest variables are the current number and the value so far.
    #[cycle(evaluation)]
    fn turns(
        &self,
        shared: &mut Shared,
        own: &mut Own,
        from: u64,
        n: u64,
        first: u64,
        body: &Expr,
    ) -> Result<u64, AllocError>
        requires numbers { from + n < 2 ^ 64 }
        requires forks { MayFork (tree_of body.now) own.old.forks shared.old.lines.items }
        ensures value { IfOk result (λ value.
            IsFolded (source_of self.now.program.now) (tree_of body.now) shared.old.environment.items from first n
            own.old shared.old value own.new shared.new) }
        ensures environment { IfOk result (λ _. shared.new.environment.items ≡ shared.old.environment.items) }
        ensures lines { IfOk result (λ _. HasLines own.old shared.old own.new shared.new) }
    {
        let variables = shared.environment.len();
        shared.environment.push(from)?;
        shared.environment.push(first)?;
        let mut so_far = first;
        for turn in 0..n {
            shared.environment[variables] = from + turn;
            shared.environment[variables + 1] = so_far;
            so_far = self.value(shared, own, body)?;
        }
        shared.environment.truncate(variables);
        Ok(so_far)
    }

    /// Reduces the numbers from `first` to `first + n - 1`, for a sweep (a parallel reduction).
    ///
    /// A child thread reduces the left half if `n` is greater than the grain (the greatest length that is not halved).
    /// It is evaluated after the right half, so that the threads' lines are in the order of the result.
    #[cycle(evaluation)]
    fn halves(
        &self,
        shared: &mut Shared,
        own: &mut Own,
        reducer: Reducer,
        first: u64,
        n: u64,
    ) -> Result<u64, AllocError>
        requires numbers { first + n < 2 ^ 64 }
        requires forks { MaySplit (tree_of reducer.body.now) n own.old.forks shared.old.lines.items }
        ensures value { IfOk result (λ value.
            IsHalved (source_of self.now.program.now) reducer.entry.reduction reducer.entry.grain (tree_of reducer.entry.body.now)
            shared.old.environment.items first n own.old shared.old value own.new shared.new) }
        ensures lines { IfOk result (λ _. HasLines own.old shared.old own.new shared.new) }
    {
        if n <= 1 || n <= reducer.grain {
            let value = self.reduce(shared, own, reducer, first, n)?;
            return Ok(value);
        }
        let name = own.fork(self.alloc)?;
        let left = n / 2;
        let right_value = self.halves(shared, own, reducer, first + left, n - left)?;
        let left_value = self.run_half(shared, name, reducer, first, left)?;
        Ok(reducer.reduction.operation().apply(left_value, right_value))
    }

    /// Evaluates the sweep's body for each number from `first` to `first + n - 1`, without a fork, and combines the
    /// values.
    #[cycle(evaluation)]
    fn reduce(
        &self,
        shared: &mut Shared,
        own: &mut Own,
        reducer: Reducer,
        first: u64,
        n: u64,
    ) -> Result<u64, AllocError>
        requires numbers { first + n < 2 ^ 64 }
        requires forks { MayFork (tree_of reducer.body.now) own.old.forks shared.old.lines.items }
        ensures value { IfOk result (λ value.
            IsReduced (source_of self.now.program.now) reducer.entry.reduction (tree_of reducer.entry.body.now)
            shared.old.environment.items first n own.old shared.old value own.new shared.new) }
        ensures environment { IfOk result (λ _. shared.new.environment.items ≡ shared.old.environment.items) }
        ensures lines { IfOk result (λ _. HasLines own.old shared.old own.new shared.new) }
    {
        let variables = shared.environment.len();
        shared.environment.push(first)?;
        let mut so_far = reducer.reduction.unit();
        for turn in 0..n {
            shared.environment[variables] = first + turn;
            let value = self.value(shared, own, reducer.body)?;
            so_far = reducer.reduction.operation().apply(so_far, value);
        }
        shared.environment.truncate(variables);
        Ok(so_far)
    }
}

/// Evaluates a checked program on the calling kernel thread. Returns `Err` only if memory is refused.
///
/// Evaluates by plain recursion, whose depth is bounded: a program has at most 64 levels, and each sweep (a parallel
/// reduction) at most 64 halvings.
pub fn eval(alloc: Global, program: &Program) -> Result<Meaning, AllocError>
    requires { IsChecked (source_of program.now) }
    ensures { IfOk result (λ meaning. meaning ≡ meaning_of (source_of program.now)) }
{
    let mut shared = Shared {
        environment: Vec::new(alloc),
        sums: vec![in alloc; 0; usize::from(program.ledgers)]?,
        lines: Vec::new(alloc),
    };
    let evaluator = Evaluator { alloc, program };
    let value = evaluator.run(&mut shared, Name::root(alloc), &program.root)?;
    Ok(Meaning {
        value,
        totals: Sequence::from(shared.sums),
        threads: Sequence::from(shared.lines),
    })
}
