use crate::choice::Choice;
use crate::newest::Newest;
use crate::oldest::Oldest;
use crate::waiting::WaitingList;
use meaning::refusal::Refusal;
use std::process::Abort;
use std::test::Fail;

// No cells: every put is refused, and there is nothing to take.
fn stays_empty<L: WaitingList<u8>>(rt: &impl Abort, list: &mut L) {
    assert_eq!(rt; list.capacity(), 0);
    assert_eq!(rt; list.put(1), Err(Refusal::NoRoom));
    assert_eq!(rt; list.len(), 0);
    assert_eq!(rt; list.take(), None);
}

#[test]
fn no_cells(rt: HostRuntime) {
    stays_empty(&rt, &mut Newest::new(&mut []));
    stays_empty(&rt, &mut Oldest::new(&mut []));
}

#[test]
fn newest_first(rt: HostRuntime) -> Result<(), Fail> {
    let mut cells = [0u8; 2];
    let mut list = Newest::new(&mut cells);
    list.put(7)?;
    list.put(8)?;
    assert_eq!(rt; list.put(9), Err(Refusal::NoRoom));
    assert_eq!(rt; list.take(), Some(8));
    list.put(9)?;
    assert_eq!(rt; list.take(), Some(9));
    assert_eq!(rt; list.take(), Some(7));
    assert_eq!(rt; list.take(), None);
    Ok(())
}

#[test]
fn oldest_first_round_the_end(rt: HostRuntime) -> Result<(), Fail> {
    let mut cells = [0u8; 2];
    let mut list = Oldest::new(&mut cells);
    list.put(7)?;
    list.put(8)?;
    assert_eq!(rt; list.put(9), Err(Refusal::NoRoom));
    assert_eq!(rt; list.take(), Some(7));
    list.put(9)?;
    assert_eq!(rt; list.len(), 2);
    assert_eq!(rt; list.take(), Some(8));
    assert_eq!(rt; list.take(), Some(9));
    assert_eq!(rt; list.take(), None);
    Ok(())
}

#[test]
fn choices(rt: HostRuntime) -> Result<(), Fail> {
    let first = Choice { item: 1, option: 2 };
    let second = Choice { item: 3, option: 0 };
    let mut cells = [first; 2];
    let mut list = Oldest::new(&mut cells);
    list.put(first)?;
    list.put(second)?;
    assert_eq!(rt; list.take(), Some(first));
    let mut cells = [first; 2];
    let mut list = Newest::new(&mut cells);
    list.put(first)?;
    list.put(second)?;
    assert_eq!(rt; list.take(), Some(second));
    Ok(())
}
