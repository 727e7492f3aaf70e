//! The sample job has one CPU, two threads, two nodes, a ring of one packet and one counter.
use calls::RawOperation;
use exclusion::abort::AbortRestart;
use exclusion::grace::Grace;
use exclusion::masking::Masking;
use exclusion::meaning::Exclusion;
use faults::{Fault, Refusal};
use machine::machine::Machine;
use model::state::{Answer, Settling};
use sample::{IMAGE, TABLE};
use std::process::Abort;
use std::test::Fail;

const ADD_FIVE: RawOperation = RawOperation {
    kind: 1,
    counter: 0,
    amount: 5,
};

const PUSH: RawOperation = RawOperation {
    kind: 2,
    counter: 0,
    amount: 0,
};

const POP: RawOperation = RawOperation {
    kind: 3,
    counter: 0,
    amount: 0,
};

const PUT_NINE: RawOperation = RawOperation {
    kind: 4,
    counter: 0,
    amount: 9,
};

const PUT_EIGHT: RawOperation = RawOperation {
    kind: 4,
    counter: 0,
    amount: 8,
};

const TAKE: RawOperation = RawOperation {
    kind: 5,
    counter: 0,
    amount: 0,
};

/// The answer of a settling, or none where nothing settled.
fn answer(settling: Option<Settling>) -> Option<Answer> {
    settling.map(|settling| settling.answer)
}

/// Runs thread 0 of CPU 0 to the end of an operation, which takes so many instructions and has this answer.
fn does<E: Exclusion>(
    rt: &impl Abort,
    machine: &mut Machine<E>,
    operation: RawOperation,
    instructions: u64,
    expected: Answer,
) -> Result<(), Fail> {
    assert_eq!(rt; machine.enlist(0, operation), Ok(()));
    let (count, settling) = machine.advance(0, 9)?;
    assert_eq!(rt; count, instructions);
    assert_eq!(rt; answer(settling), Some(expected));
    Ok(())
}

#[test]
fn a_pop_takes_the_first_node(rt: HostRuntime) -> Result<(), Fail> {
    let mut machine = Machine::boot(&IMAGE, AbortRestart::new(&TABLE))?;
    assert_eq!(rt; machine.switch(0, 0), Ok(()));
    does(&rt, &mut machine, POP, 7, Answer::Got(1))?;
    assert_eq!(rt; machine.list_item(0, 0), Ok(Some(2)));
    assert_eq!(rt; machine.list_item(0, 1), Ok(None));
    assert_eq!(rt; machine.hand(0), Ok(Some(1)));
    assert_eq!(rt; machine.hand(1), Ok(None));
    does(&rt, &mut machine, POP, 3, Answer::HandFull)?;
    does(&rt, &mut machine, PUSH, 6, Answer::Done)?;
    does(&rt, &mut machine, PUSH, 3, Answer::NoNode)?;
    assert_eq!(rt; machine.list_item(0, 1), Ok(Some(2)));
    Ok(())
}

#[test]
fn puts_and_takes_go_round_the_ring(rt: HostRuntime) -> Result<(), Fail> {
    let mut machine = Machine::boot(&IMAGE, AbortRestart::new(&TABLE))?;
    assert_eq!(rt; machine.switch(0, 0), Ok(()));
    does(&rt, &mut machine, PUT_NINE, 7, Answer::Done)?;
    assert_eq!(rt; machine.ring_item(0, 0), Ok(Some(9)));
    does(&rt, &mut machine, PUT_EIGHT, 5, Answer::Full)?;
    does(&rt, &mut machine, TAKE, 7, Answer::Got(9))?;
    does(&rt, &mut machine, TAKE, 5, Answer::Empty)?;
    assert_eq!(rt; machine.ring_item(0, 0), Ok(None));
    Ok(())
}

#[test]
fn a_masked_section_holds_a_switch(rt: HostRuntime) -> Result<(), Fail> {
    let mut machine = Machine::boot(&IMAGE, Masking::new(&TABLE))?;
    assert_eq!(rt; machine.enlist(0, ADD_FIVE), Ok(()));
    assert_eq!(rt; machine.switch(0, 0), Ok(()));
    let (count, settling) = machine.advance(0, 3)?;
    assert_eq!(rt; count, 3);
    assert_eq!(rt; answer(settling), None);
    assert_eq!(rt; machine.switch(0, 1), Err(Fault::at(Refusal::Held, 0)));
    assert_eq!(rt; answer(machine.run(0)?), None);
    assert_eq!(rt; answer(machine.run(0)?), Some(Answer::Done));
    assert_eq!(rt; machine.switch(0, 1), Ok(()));
    assert_eq!(rt; machine.counter(0, 0), Ok(5));
    Ok(())
}

#[test]
fn a_signal_interrupts_and_the_operation_starts_over(rt: HostRuntime) -> Result<(), Fail> {
    let mut machine = Machine::boot(&IMAGE, Grace::new(0, AbortRestart::new(&TABLE)))?;
    assert_eq!(rt; machine.enlist(0, ADD_FIVE), Ok(()));
    assert_eq!(rt; machine.switch(0, 0), Ok(()));
    let (count, _) = machine.advance(0, 4)?;
    assert_eq!(rt; count, 4);
    assert_eq!(rt; machine.signal(0, TAKE), Ok(()));
    let (first, taken) = machine.advance(0, 9)?;
    assert_eq!(rt; first, 5);
    assert_eq!(rt; answer(taken), Some(Answer::Empty));
    let (second, added) = machine.advance(0, 9)?;
    assert_eq!(rt; second, 6);
    assert_eq!(rt; answer(added), Some(Answer::Done));
    assert_eq!(rt; machine.counter(0, 0), Ok(5));
    assert_eq!(rt; machine.idle(0), Ok(()));
    Ok(())
}

#[test]
fn calls_are_refused_by_number(rt: HostRuntime) -> Result<(), Fail> {
    let mut machine = Machine::boot(&IMAGE, AbortRestart::new(&TABLE))?;
    assert_eq!(rt; machine.switch(1, 2), Err(Fault::at(Refusal::NoCpu, 0)));
    assert_eq!(rt; machine.switch(0, 2), Err(Fault::at(Refusal::NoThread, 0)));
    assert_eq!(rt; machine.idle(0), Err(Fault::at(Refusal::Idle, 0)));
    assert_eq!(rt; machine.switch(0, 1), Ok(()));
    assert_eq!(rt; machine.switch(0, 1), Err(Fault::at(Refusal::Current, 0)));
    assert_eq!(rt;
        machine.signal(
            1,
            RawOperation {
                kind: 1,
                counter: 1,
                amount: 0,
            },
        ),
        Err(Fault::at(Refusal::NoOperation, 0))
    );
    assert_eq!(rt; machine.enlist(1, POP), Ok(()));
    assert_eq!(rt; machine.enlist(1, POP), Err(Fault::at(Refusal::Busy, 0)));
    for _ in 0..7 {
        assert_eq!(rt; machine.signal(1, POP), Ok(()));
    }
    assert_eq!(rt;
        machine.signal(1, POP),
        Err(Fault::at(Refusal::StackFull, 0))
    );
    assert_eq!(rt;
        machine.counter(0, 1),
        Err(Fault::at(Refusal::NoOperation, 0))
    );
    assert_eq!(rt; machine.hand(2), Err(Fault::at(Refusal::NoThread, 0)));
    Ok(())
}

#[test]
fn a_boot_over_other_sections_is_refused(rt: HostRuntime) -> Result<(), Fail> {
    let mut other = TABLE;
    other[56] = 60;
    let refused = Machine::boot(&IMAGE, AbortRestart::new(&other));
    assert_eq!(rt; refused.err(), Some(Fault::at(Refusal::OtherSections, 2)));
    Ok(())
}
