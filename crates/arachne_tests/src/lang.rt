//! Tests that read and print texts of programs, and tests of the limits of programs.
use arachne_lang::{CheckFault, Expr, Operation, Program, TextFault, check, parse, print};
use arachne_policy::{BadSample, OrderFault, OrderFaultKind};
use std::alloc::{AllocError, Global};

const TEXTS: &[&[u8]] = &[
    b"arachne 1\n\
array\n\
array 0 18446744073709551615 7\n\
ledgers 255\n\
locks 10\n\
(if (lt (len 1) (var 0)) \
(let (tally 3 (num 1) (sub (num 2) (mul (num 3) (min (num 4) (max (num 5) (xor (num 6) (eq (num 7) (item 1 (num 8)))))))))\
\x20(hold 2 (fork n (num 1) (num 2) (num 3)))) \
(fold (num 0) (num 10) (fork x (num 1) (num 2) (num 3)) \
(add (sweep add 1 (num 0) (num 1) (var 0)) (add (sweep mul 2 (num 0) (num 1) (var 0)) (add (sweep xor 3 (num 0) (num 1) (var 0)) (add (sweep min 4 (num 0) (num 1) (var 0)) (sweep max 50 (num 0) (num 1) (var 0))))))))\n",
    b"arachne 1\nledgers 3\nlocks 4\n(xor (num 18446744073709551615) (len 18446744073709551615))\n",
];

const WRITTEN: &str =
    "node 3: a fork, a sweep or a hold within a hold|order 3: core 0 is never released|the sample cannot have been measured";

/// Returns true if `text` is printed as it was read, or the fault if it can't be read or printed.
fn is_read_and_printed(alloc: Global, text: &[u8]) -> Result<bool, TextFault> {
    let program = parse(alloc, text)?;
    match print(alloc, &program) {
        Ok(printed) => Ok(printed.as_slice() == text),
        Err(_) => Err(TextFault::Memory),
    }
}

/// After a refusal of memory, the next call must succeed.
#[test]
fn texts_are_printed_as_they_were_read(rt: HostRuntime) {
    for &text in TEXTS {
        let answer = match is_read_and_printed(rt.alloc(), text) {
            Err(TextFault::Memory) => is_read_and_printed(rt.alloc(), text),
            answer => answer,
        };
        assert!(rt; answer == Ok(true));
    }
}

fn judged_when_nested(
    alloc: Global,
    ledgers: u8,
    sums: u64,
) -> Result<Result<(), CheckFault>, AllocError> {
    let mut root = Expr::Num(0);
    for _ in 0..sums {
        let a = Box::new(alloc, root)?;
        root = Expr::Binary(Operation::Add, a, Box::new(alloc, Expr::Num(1))?);
    }
    let (arrays, locks) = (Vec::new(alloc), 0);
    let program = Program {
        arrays,
        ledgers,
        locks,
        root,
    };
    let verdict = check(&program);
    take_apart(program.root);
    Ok(verdict)
}

/// Drops an expression from the outside in, without the recursion of `Expr`'s own drop.
fn take_apart(mut expr: Expr) {
    while let Expr::Binary(_, a, _) = expr {
        expr = Box::into_inner(a);
    }
}

/// The checker must report nesting beyond the limit before any other fault. No program that was read from a text has
/// such nesting.
#[test]
fn nesting_is_judged_before_all_else(rt: HostRuntime) -> Result<(), AllocError> {
    let nested = judged_when_nested(rt.alloc(), 17, 100_000)?;
    assert!(rt; nested == Err(CheckFault::Nesting));
    Ok(())
}

/// The texts that the derived `Display` writes.
#[test]
fn faults_are_written(rt: HostRuntime) -> Result<(), AllocError> {
    let (nested, sample) = (CheckFault::WithinHold(3), BadSample);
    let order = OrderFault {
        index: 3,
        kind: OrderFaultKind::ReleasesCoreZero,
    };
    let text = format!(in rt.alloc(); "{nested}|{order}|{sample}")?;
    assert!(rt; text.as_str() == WRITTEN);
    Ok(())
}
