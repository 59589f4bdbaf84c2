use mem_words::Mem;

// Whether two words are handed out and no third, keep what is written, and come back.
fn takes_and_gives(mem: &mut Mem) -> bool {
    let (Some(first), Some(second)) = (mem.take(), mem.take()) else {
        return false;
    };
    if mem.take().is_some() {
        return false;
    }
    mem.set_info(first, 7);
    mem.set_link(first, 9);
    mem.set_info(second, 8);
    let kept = [
        mem.info(first),
        mem.link(first),
        mem.info(second),
        mem.link(second),
    ];
    mem.give(second);
    let used = mem.used();
    let again = mem.take();
    mem.recall_avail();
    kept == [7, 9, 8, 0] && used == 1 && again.is_some() && mem.used() == 2
}

// Words are handed out until all are used, keep what is written, and come back.
#[test]
fn words_come_back(rt: HostRuntime) {
    let back = match Mem::new(rt.alloc(), 2) {
        Ok(mut mem) => mem.size() == 2 && takes_and_gives(&mut mem),
        Err(_) => false,
    };
    assert!(rt; back);
}
