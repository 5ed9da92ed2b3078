//! Sixteen readers in threads of their own read a book to its end while it is written.

use super::author::{Author, begin};
use super::{SIXTEEN_VOIDS, THREE_BATCHES, are_at};
use solid_model::{Choice, Memory};
use solution_book::BookReader;
use std::alloc::Global;
use std::sync::Wait;
use std::test::*;
use std::thread;
use std::thread::{JoinHandle, Scope, Threads};

const READERS: u32 = 16;

/// After so many looks a reader gives up.
const LOOKS: u32 = 20_000_000;

/// Adds the next page to what was read, or lets others go first where there is none.
fn read_on<R: Wait + Drop>(
    alloc: Global,
    reader: &mut BookReader<R>,
    read: &mut Vec<Choice>,
) -> Result<(), Memory> {
    let page = reader.page(alloc, read.len(), 7)?;
    if page.solids.is_empty() {
        thread::yield_now();
    }
    for solid in page.solids {
        read.push(solid)?;
    }
    Ok(())
}

/// What a reader reads, page by page, until it has read as many solids as are to be published.
fn read_all<R: Wait + Drop>(alloc: Global, reader: BookReader<R>) -> Vec<Choice> {
    let mut reader = reader;
    let mut read = Vec::new(alloc);
    for _ in 0..LOOKS {
        if read.len() >= THREE_BATCHES as usize || read_on(alloc, &mut reader, &mut read).is_err() {
            break;
        }
    }
    read
}

/// Starts the readers that can be had a thread.
fn start_all<'s, E, R: Wait + Sync>(
    scope: &Scope<'s, E>,
    alloc: Global,
    readers: Vec<BookReader<&'s R>>,
) -> Result<Vec<JoinHandle<Vec<Choice>>>, Memory> {
    let mut all = Vec::new(alloc);
    for reader in readers {
        if let Ok(running) = scope.spawn(move || read_all(alloc, reader)) {
            all.push(running)?;
        }
    }
    Ok(all)
}

/// Publishes all solids, one by one.
fn publish_all<R: Wait + Drop>(alloc: Global, author: &mut Author<R>) -> Result<(), Memory> {
    for count in 1..THREE_BATCHES + 1 {
        author.publish_up_to(alloc, count as usize)?;
    }
    Ok(())
}

/// How many readers read all these solids, in their order.
fn count_right<R: Threads>(rt: &R, all: Vec<JoinHandle<Vec<Choice>>>, solids: &[Choice]) -> u32 {
    let mut count: u32 = 0;
    for running in all {
        let read = running.join(rt);
        if read.len() == solids.len() && are_at(solids, 0, &read) {
            count = count.saturating_add(1);
        }
    }
    count
}

/// How many readers read all solids of a book that is written meanwhile, in their order.
fn readers_that_read_all<R: Threads + Wait + Sync>(rt: &R, alloc: Global) -> Result<u32, Fail> {
    let (author, readers) = begin(rt, alloc, SIXTEEN_VOIDS, READERS)?;
    let mut author = author;
    let (author, all) = thread::scope(thread::scope_env(), rt, move |scope| {
        let all = start_all(scope, alloc, readers)?;
        publish_all(alloc, &mut author)?;
        Ok::<_, Memory>((author, all))
    })?;
    Ok(count_right(rt, all, author.solids()))
}

#[test]
fn readers_read_while_one_writes(rt: HostRuntime) -> Result<(), Fail> {
    assert!(rt; readers_that_read_all(&rt, rt.alloc())? == READERS);
    Ok(())
}
