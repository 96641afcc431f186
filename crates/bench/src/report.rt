use crate::counted::Counted;
use std::fmt::Display;
use std::io;

// What was counted.
#[derive(Clone, Copy)]
struct Tally {
    makings: usize,
    calls: usize,
    pulses: usize,
    refusals: usize,
}

const NOTHING: Tally = Tally {
    makings: 0,
    calls: 0,
    pulses: 0,
    refusals: 0,
};

impl Tally {
    fn plus(self, more: Tally) -> Tally {
        Tally {
            makings: self.makings.saturating_add(more.makings),
            calls: self.calls.saturating_add(more.calls),
            pulses: self.pulses.saturating_add(more.pulses),
            refusals: self.refusals.saturating_add(more.refusals),
        }
    }
}

// The runtime that prints, and what is counted: the tasks done, and what was made and refused in this task and in all.
#[derive(Clone, Copy)]
pub struct Report<'a> {
    pub rt: &'a HostRuntime,
    tasks: usize,
    task: Tally,
    all: Tally,
}

impl<'a> Report<'a> {
    // Says what the program does.
    pub fn open(rt: &'a HostRuntime) -> io::Result<Report<'a>> {
        rt.println(
            "This program plays 1-Wire memory tags in software and drives them as a bus master does: whole tasks, edge cases and refusals.",
        )?;
        rt.println(
            "Each line says what is asked and, after the colon, what is answered. Bytes are in hexadecimal, in the sequence in which they travel.",
        )?;
        rt.println(
            "A step is a reset, a slot of one bit, or a dwell, the time in which a tag programs. If power fails while a tag programs, the row gets its new bits only where the mask has ones.",
        )?;
        Ok(Report {
            rt,
            tasks: 0,
            task: NOTHING,
            all: NOTHING,
        })
    }

    // A task begins, with a heading.
    pub fn begin<D: Display + Drop>(&mut self, heading: D) -> io::Result<()> {
        let task = self.tasks.saturating_add(1);
        self.rt.println("")?;
        println!(self.rt; "Task {task}: {heading}.")
    }

    pub fn count_making(&mut self) {
        self.task.makings = self.task.makings.saturating_add(1);
    }

    pub fn count_call(&mut self) {
        self.task.calls = self.task.calls.saturating_add(1);
    }

    pub fn count_pulses(&mut self, pulses: usize) {
        self.task.pulses = self.task.pulses.saturating_add(pulses);
    }

    pub fn count_refusal(&mut self) {
        self.task.refusals = self.task.refusals.saturating_add(1);
    }

    // A task of makings is done.
    pub fn end_makings(&mut self) -> io::Result<()> {
        let Tally {
            makings,
            refusals,
            ..
        } = self.task;
        let made = makings.saturating_sub(refusals);
        self.close();
        println!(self.rt; "Done: {made} made, {refusals} refused.")
    }

    // A task of calls is done; what it accomplished.
    pub fn end_calls<D: Display + Drop>(&mut self, what: D) -> io::Result<()> {
        let calls = Counted(self.task.calls, "call");
        let refusals = self.task.refusals;
        self.close();
        match refusals {
            0 => println!(self.rt; "Done: {what}; {calls}, none refused."),
            _ => println!(self.rt; "Done: {what}; {calls}, {refusals} refused."),
        }
    }

    // A task is done; what it counted is counted among all.
    pub fn close(&mut self) {
        self.tasks = self.tasks.saturating_add(1);
        self.all = self.all.plus(self.task);
        self.task = NOTHING;
    }

    // Says what was accomplished in all.
    pub fn sum_up(self) -> io::Result<()> {
        let tasks = self.tasks;
        let Tally {
            makings,
            calls,
            pulses,
            refusals,
        } = self.all;
        self.rt.println("")?;
        println!(self.rt;
            "All {tasks} tasks are done: {makings} makings, {calls} calls and {pulses} pulses; {refusals} refusals, each the expected one."
        )
    }
}
