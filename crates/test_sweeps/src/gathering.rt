//! Lists of swept tasks, put in order or refused.

ghost use Rattle.std.specs.Prelude.{◌≡◌, IfOk};

use std::alloc::{AllocError, Global};
use sweep_pool::{Cutting, GatherFault, Swept, gather};

// An item of a task: so many words, each the task's number plus 1.
fn item(alloc: Global, task: u32, words: usize) -> Result<Swept, AllocError> {
    let masks = vec![in alloc; u64::from(task) + 1; words]?;
    Ok(Swept { task, masks })
}

// Items of so many tasks and words each.
fn items(alloc: Global, list: &[(u32, usize)]) -> Result<Vec<Swept>, AllocError> {
    let mut all = Vec::with_capacity(alloc, list.len())?;
    for &(task, words) in list {
        all.push(item(alloc, task, words)?)?;
    }
    Ok(all)
}

#[test]
fn a_list_in_any_order(rt: HostRuntime) {
    let cutting = Cutting::new(1, 1).expect(&rt, "it is a cutting");
    let list = items(rt.alloc(), &[(1, 4), (0, 4)]).expect(&rt, "there is memory");
    let masks = gather(rt.alloc(), cutting.tasks(2), &cutting, 2, list);
    assert!(rt; masks.is_ok_and(|masks| masks.as_slice() == [1, 1, 1, 1, 2, 2, 2, 2].as_slice()));
}

#[test]
fn faults_of_lists(rt: HostRuntime) {
    let cutting = Cutting::new(1, 1).expect(&rt, "it is a cutting");
    let cases: [(&[(u32, usize)], GatherFault); 9] = [
        (&[(0, 4), (0, 4)], GatherFault::Double(0)),
        (&[(0, 4), (7, 4)], GatherFault::Stranger(7)),
        (&[(1, 4)], GatherFault::Missing(0)),
        (&[(0, 4), (1, 3)], GatherFault::WrongSize(1)),
        (&[], GatherFault::Missing(0)),
        (&[(7, 3)], GatherFault::Stranger(7)),
        (&[(0, 4), (0, 3)], GatherFault::Double(0)),
        (&[(1, 3), (1, 4)], GatherFault::WrongSize(1)),
        (&[(0, 4), (7, 4), (0, 4)], GatherFault::Stranger(7)),
    ];
    for (list, fault) in cases {
        let list = items(rt.alloc(), list).expect(&rt, "there is memory");
        let masks = gather(rt.alloc(), cutting.tasks(2), &cutting, 2, list);
        assert_eq!(rt; masks.err(), Some(fault));
    }
}

#[test]
fn the_last_task_may_be_shorter(rt: HostRuntime) {
    let cutting = Cutting::new(1, 2).expect(&rt, "it is a cutting");
    let long = items(rt.alloc(), &[(1, 8)]).expect(&rt, "there is memory");
    let masks = gather(rt.alloc(), cutting.tasks(3), &cutting, 3, long);
    assert_eq!(rt; masks.err(), Some(GatherFault::WrongSize(1)));
    let list = items(rt.alloc(), &[(1, 4), (0, 8)]).expect(&rt, "there is memory");
    let masks = gather(rt.alloc(), cutting.tasks(3), &cutting, 3, list);
    assert!(rt;
        masks.is_ok_and(|masks| masks.as_slice() == [1, 1, 1, 1, 1, 1, 1, 1, 2, 2, 2, 2].as_slice())
    );
}

// It is run with each allocation refused in turn.
#[test]
fn a_refused_allocation_of_a_gathering_is_told(rt: HostRuntime) {
    let Ok(cutting) = Cutting::new(1, 1) else {
        return;
    };
    let Ok(list) = items(rt.alloc(), &[(1, 4), (0, 4)]) else {
        return;
    };
    match gather(rt.alloc(), cutting.tasks(2), &cutting, 2, list) {
        Ok(masks) => assert_eq!(rt; masks.as_slice(), [1, 1, 1, 1, 2, 2, 2, 2].as_slice()),
        Err(fault) => assert_eq!(rt; fault, GatherFault::Memory),
    }
}
