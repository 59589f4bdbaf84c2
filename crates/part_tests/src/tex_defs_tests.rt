use std::test::Fail;
use tex_defs::{Full, Sizes, Stop, Table};

#[test]
fn checks_sizes(rt: HostRuntime) {
    let d = Sizes::DEFAULT;
    let small = Sizes {
        buffer_size: 79,
        ..d
    };
    let first = Sizes {
        pool_size: 3999,
        hash_size: 65536,
        ..d
    };
    let large = Sizes {
        delayed_writes: 1000001,
        ..d
    };
    let told = [d.check(), small.check(), first.check(), large.check()];
    let wanted = [
        Ok(()),
        Err(Table::BufferSize),
        Err(Table::PoolSize),
        Err(Table::DelayedWrites),
    ];
    assert!(rt; told == wanted);
}

#[test]
fn tells_stops(rt: HostRuntime) -> Result<(), Fail> {
    let full = Full {
        table: Table::SaveSize,
        used: 2,
        size: 2,
    };
    let text = format!(in rt.alloc(); "{}", Stop::Full(full))?;
    assert!(rt; text.as_str() == "table full: Full { table: SaveSize, used: 2, size: 2 }");
    Ok(())
}
