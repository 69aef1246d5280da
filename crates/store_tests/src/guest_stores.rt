// A store in memory: made, filled, opened, and a mount of it begun.
use fuse_answer::Answer;
use fuse_init::Settings;
use fuse_keeper::StoreFault;
use fuse_store_tables::{begin, commit};
use fuse_wire::{Errno, InitFlags};
use guest_tables::{
    NEXT_LOT, begin_mount, bits_at, count_kept, count_lots, delete_four_kept, delete_kept,
    find_answer, find_next_lot, find_settings, insert_kept, insert_lot, make_store, open_fresh,
    open_store, select_counters, select_kept, take_lot, update_counter, write_settings,
};
use sqlite::{Connection, MemStore, Row};
use std::alloc::Global;

fn made(alloc: Global) -> Result<Connection<MemStore>, StoreFault> {
    let mut conn = Connection::open_in_memory(alloc)?;
    make_store(&mut conn, 77)?;
    Ok(conn)
}

// Five records in one lot.
fn filled(alloc: Global) -> Result<Connection<MemStore>, StoreFault> {
    let mut conn = made(alloc)?;
    begin(&mut conn)?;
    let missing = Answer::refusal(alloc, Errno::ENOENT);
    insert_lot(&mut conn, 1)?;
    insert_kept(&mut conn, 2, 1, &missing)?;
    insert_kept(&mut conn, 4, 1, &missing)?;
    insert_kept(&mut conn, 6, 1, &missing)?;
    insert_kept(&mut conn, 8, 1, &missing)?;
    insert_kept(&mut conn, 10, 1, &missing)?;
    commit(&mut conn)?;
    Ok(conn)
}

fn agree(conn: &mut Connection<MemStore>) -> Result<(), StoreFault> {
    let settings = Settings {
        minor: 40,
        max_readahead: 131072,
        flags: InitFlags(5),
    };
    begin(conn)?;
    write_settings(conn, settings, u64::MAX)?;
    Ok(commit(conn)?)
}

fn value(rows: &[Row], at: usize) -> Result<u64, StoreFault> {
    match rows.get(at) {
        None => Err(StoreFault::Damaged),
        Some(row) => bits_at(row, 0),
    }
}

#[test]
fn a_new_store_is_opened(rt: HostRuntime) -> Result<(), StoreFault> {
    let mut conn = made(rt.alloc())?;
    open_store(&mut conn)?;
    let rows = select_counters(&mut conn)?;
    assert_eq!(rt; value(rows.as_slice(), 5)?, 77);
    Ok(())
}

#[test]
fn an_empty_database_is_no_store(rt: HostRuntime) -> Result<(), StoreFault> {
    let mut conn = Connection::open_in_memory(rt.alloc())?;
    let opened = open_store(&mut conn);
    assert!(rt; matches!(opened, Err(StoreFault::Sql(_))));
    Ok(())
}

#[test]
fn settings_are_kept_to_the_next_mount(rt: HostRuntime) -> Result<(), StoreFault> {
    let mut conn = made(rt.alloc())?;
    agree(&mut conn)?;
    let rows = select_counters(&mut conn)?;
    let kept = [value(rows.as_slice(), 1)?, value(rows.as_slice(), 7)?];
    begin_mount(&mut conn)?;
    let rows = select_counters(&mut conn)?;
    assert_eq!(rt; kept, [40, u64::MAX]);
    assert_eq!(rt; value(rows.as_slice(), 7)?, 0);
    Ok(())
}

#[test]
fn records_are_deleted(rt: HostRuntime) -> Result<(), StoreFault> {
    let mut conn = filled(rt.alloc())?;
    let all = count_kept(&mut conn)?;
    let found = select_kept(&mut conn, 4)?.len();
    begin(&mut conn)?;
    delete_four_kept(&mut conn, 2, 4, 6, 7)?;
    delete_kept(&mut conn, 8)?;
    commit(&mut conn)?;
    assert_eq!(rt;
        [all, count_kept(&mut conn)?, count_lots(&mut conn)?],
        [5, 1, 1]
    );
    assert_eq!(rt; [found, select_kept(&mut conn, 4)?.len()], [1, 0]);
    Ok(())
}

#[test]
fn a_mount_begins_without_records(rt: HostRuntime) -> Result<(), StoreFault> {
    let mut conn = filled(rt.alloc())?;
    begin(&mut conn)?;
    update_counter(&mut conn, NEXT_LOT, 2)?;
    let lot = take_lot(&mut conn)?;
    commit(&mut conn)?;
    open_fresh(&mut conn)?;
    assert_eq!(rt;
        [lot, count_kept(&mut conn)?, count_lots(&mut conn)?],
        [2, 0, 0]
    );
    Ok(())
}

#[test]
fn settings_are_found(rt: HostRuntime) -> Result<(), StoreFault> {
    let mut conn = made(rt.alloc())?;
    let before = find_settings(&mut conn)?;
    agree(&mut conn)?;
    let after = find_settings(&mut conn)?;
    begin_mount(&mut conn)?;
    let begun = find_settings(&mut conn)?;
    let agreed = Settings {
        minor: 40,
        max_readahead: 131072,
        flags: InitFlags(5),
    };
    assert_eq!(rt; [before, after, begun], [None, Some(agreed), None]);
    Ok(())
}

fn errno_of(conn: &mut Connection<MemStore>, id: u64) -> Result<Option<Errno>, StoreFault> {
    Ok(find_answer(conn, id)?.map(|answer| answer.errno))
}

#[test]
fn an_answer_is_found(rt: HostRuntime) -> Result<(), StoreFault> {
    let mut conn = filled(rt.alloc())?;
    let found = [errno_of(&mut conn, 4)?, errno_of(&mut conn, 5)?];
    assert_eq!(rt; found, [Some(Errno::ENOENT), None]);
    Ok(())
}

#[test]
fn the_next_lot_is_found(rt: HostRuntime) -> Result<(), StoreFault> {
    let mut conn = made(rt.alloc())?;
    begin(&mut conn)?;
    let first = find_next_lot(&mut conn)?;
    let taken = take_lot(&mut conn)?;
    let second = find_next_lot(&mut conn)?;
    commit(&mut conn)?;
    assert_eq!(rt; [first, taken, second], [1, 1, 2]);
    Ok(())
}

// A store with a record that another program wrote.
fn opened_with(alloc: Global, record: &str) -> Result<Result<(), StoreFault>, StoreFault> {
    let mut conn = made(alloc)?;
    begin(&mut conn)?;
    take_lot(&mut conn)?;
    conn.execute(record, &[])?;
    commit(&mut conn)?;
    Ok(open_store(&mut conn))
}

#[test]
fn a_record_that_is_none_is_refused(rt: HostRuntime) -> Result<(), StoreFault> {
    let right = "INSERT INTO kept (id, lot, errno, body) VALUES (1, 1, 0, x'00')";
    let both = "INSERT INTO kept (id, lot, errno, body) VALUES (1, 1, 2, x'00')";
    let large = "INSERT INTO kept (id, lot, errno, body) VALUES (1, 1, 4294967296, x'')";
    let negative = "INSERT INTO kept (id, lot, errno, body) VALUES (-1, 1, 0, x'')";
    let opened = opened_with(rt.alloc(), right)?;
    assert!(rt; opened.is_ok());
    let opened = opened_with(rt.alloc(), both)?;
    assert!(rt; matches!(opened, Err(StoreFault::Damaged)));
    let opened = opened_with(rt.alloc(), large)?;
    assert!(rt; matches!(opened, Err(StoreFault::Damaged)));
    let opened = opened_with(rt.alloc(), negative)?;
    assert!(rt; matches!(opened, Err(StoreFault::Damaged)));
    Ok(())
}
