use pool::node::{FLAT, Node, PoolFault};
use pool::pool::{Pool, Tables};
use rows::kinds::{BaseKinds, NUMBER};
use std::test::Fail;

#[test]
fn every_node_opens_once(rt: HostRuntime) -> Result<(), Fail> {
    let mut tables = Tables::EMPTY;
    let mut pool = Pool::new(&mut tables.nodes, &mut tables.words);
    for i in 0..=255 {
        assert_eq!(rt; pool.open_builder(&BaseKinds, NUMBER, 0), Ok(i));
    }
    assert_eq!(rt;
        pool.open_builder(&BaseKinds, NUMBER, 0),
        Err(PoolFault::Nodes)
    );
    Ok(())
}

// One node has the words 4 and 5 of ten.
const MIDDLE: Node = Node {
    encoding: FLAT,
    kind: NUMBER,
    len: 2,
    height: 1,
    count: 1,
    start: 4,
    run: 2,
    ..Node::FREE
};

#[test]
fn words_in_two_places_are_no_run(rt: HostRuntime) {
    let mut nodes = [MIDDLE, Node::FREE];
    let mut words = [0; 10];
    let mut pool = Pool {
        nodes: &mut nodes,
        words: &mut words,
    };
    assert_eq!(rt;
        pool.open_builder(&BaseKinds, NUMBER, 5),
        Err(PoolFault::Words)
    );
    assert_eq!(rt; pool.nodes_used(), 1);
    assert_eq!(rt; pool.words_used(), 2);
}

#[test]
fn the_lowest_run_is_taken(rt: HostRuntime) {
    let mut nodes = [MIDDLE, Node::FREE, Node::FREE];
    let mut words = [0; 10];
    let mut pool = Pool {
        nodes: &mut nodes,
        words: &mut words,
    };
    assert_eq!(rt; pool.find_run(3), Some(0));
    assert_eq!(rt; pool.open_builder(&BaseKinds, NUMBER, 3), Ok(1));
    assert_eq!(rt; pool.find_run(2), Some(6));
    assert_eq!(rt; pool.find_run(1), Some(3));
}
