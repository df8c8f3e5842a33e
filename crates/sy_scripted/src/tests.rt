ghost use Rattle.std.specs.Prelude.{◌≡◌, true, None, IfOk, IfSome, pos, [], ◌∷◌};
ghost use Rattle.sy_work.specs.Inputs.{InputsFit};

use super::*;
use std::alloc::{AllocError, Global};
use std::test::Fail;
use sy_access::{Bytes, Cell, Log, Sizes, Values};
use sy_work::{
    Answer, Ask, Cause, Command, Fault, Host, HostStop, Inputs, Kernel, Outcome, Runner,
};

fn scripts(alloc: Global) -> Result<Vec<Script>, AllocError> {
    let mut main = Vec::new(alloc);
    main.push(Line::of(Ask::Print(Bytes::of(b"hi".to_vec(alloc)?))))?;
    main.push(Line {
        ask: Ask::Spawn(1, Values::of([7].to_vec(alloc)?)),
        wants: Some(Answer::Number(1)),
    })?;
    main.push(Line::of(Ask::Finish(3)))?;
    let mut scripts = Vec::new(alloc);
    scripts.push(Script::of(main))?;
    scripts.push(Script::of(vec![in alloc; Line::of(Ask::Join(0))]?))?;
    Ok(scripts)
}

fn is_sliced<H: Host>(host: &mut H) -> Result<bool, AllocError>
    requires { H.pending host.old ≡ None }
    ensures { IfOk result (λ sliced. sliced ≡ true → H.pending host.new ≡ None) }
{
    Ok(matches!(host.next(5)?, HostStop::Sliced))
}

fn prints<H: Host>(host: &mut H, want: &[u8]) -> Result<bool, AllocError>
    requires { H.pending host.old ≡ None }
    ensures { IfOk result (λ so. so ≡ true → H.pending host.new ≡ None) }
{
    match host.next(5)? {
        HostStop::Asked(Ask::Print(bytes)) => {
            host.answer(Answer::Done)?;
            Ok(bytes.items() == want)
        }
        _ => Ok(false),
    }
}

fn spawns<H: Host + Drop>(host: &mut H, want: u32) -> Result<Option<H>, AllocError>
    requires { H.pending host.old ≡ None }
    ensures { IfOk result (λ child. IfSome child (λ child. (H.pending child ≡ None) × (H.pending host.new ≡ None))) }
{
    match host.next(5)? {
        HostStop::Asked(Ask::Spawn(body, captures)) if body == want => {
            let child = host.child(body, &captures)?;
            host.answer(Answer::Number(1))?;
            Ok(Some(child))
        }
        _ => Ok(None),
    }
}

fn joins<H: Host>(host: &mut H) -> Result<Option<u32>, AllocError>
    requires { H.pending host.old ≡ None }
    ensures { IfOk result (λ thread. IfSome thread (λ n. H.pending host.new ≡ None)) }
{
    match host.next(5)? {
        HostStop::Asked(Ask::Join(thread)) => {
            host.answer(Answer::Done)?;
            Ok(Some(thread))
        }
        _ => Ok(None),
    }
}

fn finishes<H: Host>(host: &mut H) -> Result<Option<i32>, AllocError>
    requires { H.pending host.old ≡ None }
{
    match host.next(5)? {
        HostStop::Asked(Ask::Finish(value)) => Ok(Some(value)),
        _ => Ok(None),
    }
}

#[test]
fn scripts_are_played(rt: HostRuntime) -> Result<(), Fail> {
    let mut host = Scripted::new(rt.alloc(), scripts(rt.alloc())?, 0, 5)?;
    assert!(rt; is_sliced(&mut host)?, "five turns are left");
    assert!(rt; prints(&mut host, b"hi")?);
    let mut child = spawns(&mut host, 1)?.ok_or("no spawn")?;
    assert_eq!(rt; finishes(&mut host)?, Some(3));
    assert_eq!(rt; joins(&mut child)?, Some(0));
    Ok(())
}

const FAULT: Fault = Fault {
    item: 2,
    line: 3,
    cause: Cause::Divergence,
};

fn table(alloc: Global) -> Result<Tabled, AllocError> {
    let log = Log::of(vec![in alloc; (Cell::Buffer(0, 1), 5)]?);
    let mut rows = Vec::new(alloc);
    rows.push(TableRow {
        code: 4,
        outcome: Outcome::Wrote(log),
    })?;
    rows.push(TableRow {
        code: 6,
        outcome: Outcome::Failed(FAULT),
    })?;
    Ok(Tabled::new(alloc, rows))
}

fn kernel(alloc: Global, code: u32) -> Kernel {
    let captures = Values::of(Vec::new(alloc));
    let locals = Sizes::of(Vec::new(alloc));
    Kernel {
        code,
        captures,
        locals,
        turns: 9,
    }
}

fn written<R: Runner>(
    r: &R,
    c: &Command,
    inputs: &Inputs,
    cell: Cell,
) -> Result<Option<i128>, AllocError>
    requires known { R.knows r.now c.now }
    requires fit { InputsFit c.now inputs.now }
{
    match r.run(c, inputs)? {
        Outcome::Wrote(log) => Ok(log.number(cell)),
        Outcome::Failed(_) => Ok(None),
    }
}

#[test]
fn a_table_answers(rt: HostRuntime) -> Result<(), Fail> {
    let alloc = rt.alloc();
    let runner = table(alloc)?;
    let none = Inputs::of(Vec::new(alloc));
    let cell = Cell::Buffer(0, 1);
    let listed = Command::Single(kernel(alloc, 4));
    assert_eq!(rt; written(&runner, &listed, &none, cell)?, Some(5));
    let unlisted = Command::Single(kernel(alloc, 8));
    assert_eq!(rt; written(&runner, &unlisted, &none, cell)?, None);
    let failing = Command::Single(kernel(alloc, 6));
    let Outcome::Failed(fault) = runner.run_with(&rt, &failing, &none)? else {
        return Err("it failed".into());
    };
    assert_eq!(rt; fault, FAULT);
    Ok(())
}

fn one_input(alloc: Global) -> Result<Inputs, AllocError>
    ensures { IfOk result (λ inputs. inputs ≡ (3, 10, pos 1 ∷ pos 2 ∷ []) ∷ []) }
{
    let values = Values::of([1, 2].to_vec(alloc)?);
    Ok(Inputs::of(vec![in alloc; (3, 10, values)]?))
}

#[test]
fn a_fill_is_run(rt: HostRuntime) -> Result<(), Fail> {
    let runner = table(rt.alloc())?;
    let inputs = one_input(rt.alloc())?;
    let fill = Command::Fill(0, -7);
    assert_eq!(rt;
        written(&runner, &fill, &inputs, Cell::Buffer(3, 11))?,
        Some(-7)
    );
    assert_eq!(rt;
        written(&runner, &fill, &inputs, Cell::Buffer(3, 12))?,
        None
    );
    let copy = Command::Copy(0, 0);
    assert_eq!(rt;
        written(&runner, &copy, &inputs, Cell::Buffer(3, 11))?,
        Some(2)
    );
    Ok(())
}
