//! The work of one thread of a run.

use crate::nodes::Node;
use crate::run::Run;
use node_fleet::{FleetSite, Pass};
use std::sync::Wait;

/// The part of a thread.
#[derive(Clone, Copy)]
pub enum Part {
    /// The driver with this number.
    Driver(u8),
    /// The thread of this node.
    Node(Node),
}

/// A thread's part of a run, with its pass.
#[derive(Drop)]
pub struct WorkerContext<'f, 'a, L: FleetSite> {
    pub run: Run<'f, 'a, L>,
    pub part: Part,
    pub pass: Pass<'a, L>,
}

impl<'f, 'a, L: FleetSite> WorkerContext<'f, 'a, L> {
    /// Follows this driver's orders. Before each of them waits for all orders before the last `wait`.
    fn drive<R: Wait>(&mut self, rt: &R, number: u8) {
        let WorkerContext { run, pass, .. } = self;
        let mut waited = 0;
        for (index, assignment) in run.assignments.iter().enumerate() {
            if assignment.driver == number {
                for earlier in waited..assignment.behind {
                    let _ = run.completions.wait(rt, earlier);
                }
                waited = waited.max(assignment.behind);
                run.follow(rt, pass, index);
            }
        }
    }

    /// Delivers the orders that are posted to a node, up to the closing letter.
    fn serve<R: Wait>(&mut self, rt: &R, node: Node) {
        let WorkerContext { run, pass, .. } = self;
        for _ in rt.forever() {
            let Some(index) = run.collect(rt, pass, node) else {
                return;
            };
            run.deliver(rt, pass, index, node);
        }
    }

    /// Does its part, if all threads were started. Returns its pass.
    pub fn work<R: Wait>(self, rt: &R) -> Pass<'a, L> {
        let mut worker = self;
        if *worker.run.completions.go.wait(rt) {
            match worker.part {
                Part::Driver(number) => worker.drive(rt, number),
                Part::Node(node) => worker.serve(rt, node),
            }
        }
        worker.pass
    }
}
