//! Workers are made with room for what is dealt to them.

#[test]
fn each_worker_has_room(rt: HostRuntime) {
    let workers = dealing::workers::<u32>(rt.alloc(), 3, 5).expect(&rt, "memory");
    assert!(&rt; workers.len() == 3);
    for worker in &workers {
        assert!(&rt; worker.queue.is_empty() && worker.queue.capacity() >= 5);
    }
}
