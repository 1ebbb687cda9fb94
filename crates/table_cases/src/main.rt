// Hand-made tables for writer and judge, one case for each refusal of lent tables: the request P1 of
// document 01 with one thing changed. For each case its name, the refusal and its place.
#![tactic(auto)]

mod case;
mod tables;

use case::Case;
use std::io;
use tables::{Edit, Sizes};

fn main(rt: HostRuntime) -> io::Result<()> {
    case::run_all(&rt, &[Case::new("p1")])?;
    case::run_all(&rt, &rooms())?;
    case::run_all(&rt, &head_counts())?;
    case::run_all(&rt, &rows_unused())?;
    case::run_all(&rt, &rows_range())?;
    case::run_all(&rt, &rows_later())?;
    case::run_all(&rt, &policy())?;
    case::run_all(&rt, &goals())?;
    case::run_all(&rt, &proof())?;
    case::run_all(&rt, &past_counts())?;
    case::run_all(&rt, &past_room())?;
    case::run_all(&rt, &lines_first())?;
    case::run_all(&rt, &outputs())?;
    case::run_all(&rt, &output_last())?;
    case::run_all(&rt, &versions())?;
    case::run_all(&rt, &unit_told())?;
    case::run_all(&rt, &further_down())
}

// A table too short comes before any look at the counts.
fn rooms() -> [Case; 6] {
    [
        Case::new("forms-short").sizes(Sizes::FORMS_SHORT),
        Case::new("lines-short").sizes(Sizes::POLICY_SHORT),
        Case::new("steps-short").sizes(Sizes::STEPS_SHORT),
        Case::new("forms-short-principals-0")
            .principals(0)
            .sizes(Sizes::FORMS_SHORT),
        Case::new("lines-short-clauses-129")
            .policy(129)
            .sizes(Sizes::POLICY_SHORT),
        Case::new("steps-short-steps-2049")
            .steps(2049)
            .sizes(Sizes::STEPS_SHORT),
    ]
}

fn head_counts() -> [Case; 10] {
    [
        Case::new("principals-0").principals(0),
        Case::new("principals-16").principals(16),
        Case::new("principals-17").principals(17),
        Case::new("atoms-0").atoms(0),
        Case::new("atoms-256").atoms(256),
        Case::new("atoms-257").atoms(257),
        Case::new("formulas-0").formulas(0),
        Case::new("formulas-1024").formulas(1024),
        Case::new("formulas-1025").formulas(1025),
        Case::new("principals-0-atoms-0").principals(0).atoms(0),
    ]
}

// Formula 3, line 8: a kind that there is not, and a nonzero operand that its kind lacks.
fn rows_unused() -> [Case; 7] {
    [
        Case::new("form-kind-8").edit(Edit::Row(9, [8, 0, 0])),
        Case::new("form-kind-65535").edit(Edit::Row(9, [65535, 0, 0])),
        Case::new("p-second").edit(Edit::Row(9, [0, 0, 1])),
        Case::new("top-first").edit(Edit::Row(9, [1, 1, 0])),
        Case::new("top-second").edit(Edit::Row(9, [1, 0, 1])),
        Case::new("bot-first").edit(Edit::Row(9, [2, 1, 0])),
        Case::new("bot-second").edit(Edit::Row(9, [2, 0, 1])),
    ]
}

// Formula 3, line 8: an atom or a principal that there is not, also before an operand too late.
fn rows_range() -> [Case; 5] {
    [
        Case::new("p-atom-1").edit(Edit::Row(9, [0, 1, 0])),
        Case::new("says-principal-2").edit(Edit::Row(9, [6, 2, 0])),
        Case::new("sf-first-2").edit(Edit::Row(9, [7, 2, 0])),
        Case::new("sf-second-2").edit(Edit::Row(9, [7, 0, 2])),
        Case::new("says-principal-2-own").edit(Edit::Row(9, [6, 2, 3])),
    ]
}

// An operand that names its own row, or a later one.
fn rows_later() -> [Case; 10] {
    [
        Case::new("and-first-own").edit(Edit::Row(9, [3, 3, 0])),
        Case::new("and-second-own").edit(Edit::Row(9, [3, 0, 3])),
        Case::new("or-first-own").edit(Edit::Row(9, [4, 3, 0])),
        Case::new("or-second-own").edit(Edit::Row(9, [4, 0, 3])),
        Case::new("imp-first-own").edit(Edit::Row(9, [5, 3, 0])),
        Case::new("imp-second-own").edit(Edit::Row(9, [5, 0, 3])),
        Case::new("says-own").edit(Edit::Row(9, [6, 0, 3])),
        Case::new("and-later").edit(Edit::Row(9, [3, 4, 0])),
        Case::new("and-65535").edit(Edit::Row(9, [3, 0, 65535])),
        Case::new("first-own").edit(Edit::Row(0, [3, 0, 0])),
    ]
}

// The clauses line is line 10, the second policy line 12.
fn policy() -> [Case; 7] {
    [
        Case::new("clauses-128").policy(128),
        Case::new("clauses-129").policy(129),
        Case::new("clause-5").edit(Edit::Line(1, 5)),
        Case::new("clause-65535").edit(Edit::Line(2, 65535)),
        Case::new("clause-bot").edit(Edit::Row(9, [2, 0, 0])),
        Case::new("clause-or").edit(Edit::Row(9, [4, 0, 0])),
        Case::new("clause-says-sf").edit(Edit::Row(12, [6, 0, 3])),
    ]
}

// The goal line is line 14, and with seven formulas line 16.
fn goals() -> [Case; 4] {
    [
        Case::new("goal-5").goal(5),
        Case::new("goal-65535").goal(65535),
        Case::new("goal-imp").goal(2),
        Case::new("goal-no-chunk")
            .formulas(7)
            .goal(6)
            .edit(Edit::NoChunk),
    ]
}

// The steps line is line 15, and step 1 line 16.
fn proof() -> [Case; 9] {
    [
        Case::new("steps-0").steps(0),
        Case::new("steps-2048").steps(2048),
        Case::new("steps-2049").steps(2049),
        Case::new("step-kind-18").edit(Edit::Step(0, 18)),
        Case::new("step-kind-65535").edit(Edit::Step(12, 65535)),
        Case::new("hit-1").edit(Edit::Step(5, 1)),
        Case::new("says-1").edit(Edit::Step(7, 1)),
        Case::new("use-65535").edit(Edit::Step(1, 65535)),
        Case::new("to-65535").edit(Edit::Step(3, 65535)),
    ]
}

// A nonzero entry past the counts, first and last of each table.
fn past_counts() -> [Case; 8] {
    [
        Case::new("forms-15").edit(Edit::Form(15, 1)),
        Case::new("forms-3071").edit(Edit::Form(3071, 1)),
        Case::new("lines-3").edit(Edit::Line(3, 1)),
        Case::new("lines-127").edit(Edit::Line(127, 1)),
        Case::new("steps-14").edit(Edit::Step(14, 1)),
        Case::new("steps-4095").edit(Edit::Step(4095, 1)),
        Case::new("lines-left-over").policy(2),
        Case::new("steps-left-over").steps(6),
    ]
}

// Tables longer than the largest counts need, with zeros there and without.
fn past_room() -> [Case; 4] {
    [
        Case::new("longer").sizes(Sizes::LONGER),
        Case::new("longer-forms-3072")
            .sizes(Sizes::LONGER)
            .edit(Edit::Form(3072, 1)),
        Case::new("longer-lines-128")
            .sizes(Sizes::LONGER)
            .edit(Edit::Line(128, 1)),
        Case::new("longer-steps-4096")
            .sizes(Sizes::LONGER)
            .edit(Edit::Step(4096, 1)),
    ]
}

// The lines, the steps' own too, come before the entries past the counts.
fn lines_first() -> [Case; 5] {
    [
        Case::new("principals-0-forms-15")
            .principals(0)
            .edit(Edit::Form(15, 1)),
        Case::new("goal-5-forms-15").goal(5).edit(Edit::Form(15, 1)),
        Case::new("steps-2049-lines-3")
            .steps(2049)
            .edit(Edit::Line(3, 1)),
        Case::new("step-kind-18-lines-2")
            .policy(2)
            .edit(Edit::Step(0, 18)),
        Case::new("goal-5-longer-forms-3072")
            .goal(5)
            .sizes(Sizes::LONGER)
            .edit(Edit::Form(3072, 1)),
    ]
}

// The text of P1 has 226 bytes.
fn outputs() -> [Case; 4] {
    [
        Case::new("room-1").room(1),
        Case::new("room-225").room(225),
        Case::new("room-226").room(226),
        Case::new("room-227").room(227),
    ]
}

// A line, and an entry past the counts, come before an output too short.
fn output_last() -> [Case; 2] {
    [
        Case::new("room-225-forms-15")
            .edit(Edit::Form(15, 1))
            .room(225),
        Case::new("room-225-hit-1").edit(Edit::Step(5, 1)).room(225),
    ]
}

// Versions 1 and 2 with either logic, which 0 and any other number tell; every other version is refused at line 1.
fn versions() -> [Case; 8] {
    [
        Case::new("version-0").told(0, 0),
        Case::new("version-0-unit").told(0, 1),
        Case::new("version-2").told(2, 0),
        Case::new("version-2-unit").told(2, 1),
        Case::new("version-2-logic-65535").told(2, 65535),
        Case::new("version-3").told(3, 0),
        Case::new("version-65535-unit").told(65535, 1),
        Case::new("version-3-principals-0").principals(0).told(3, 0),
    ]
}

// Unit with version 1: behind a table too short, before every line, the entries past the counts and the output.
fn unit_told() -> [Case; 6] {
    [
        Case::new("unit").told(1, 1),
        Case::new("logic-2").told(1, 2),
        Case::new("forms-short-unit")
            .told(1, 1)
            .sizes(Sizes::FORMS_SHORT),
        Case::new("unit-principals-0").principals(0).told(1, 1),
        Case::new("unit-forms-15")
            .told(1, 1)
            .edit(Edit::Form(15, 1)),
        Case::new("room-225-unit").told(1, 1).room(225),
    ]
}

// In version 2 every line from `principals=` on is one further down, and the text of P1 has 238 bytes.
fn further_down() -> [Case; 7] {
    [
        Case::new("version-2-principals-0").principals(0).told(2, 0),
        Case::new("version-2-p-second")
            .told(2, 1)
            .edit(Edit::Row(9, [0, 0, 1])),
        Case::new("version-2-goal-5").goal(5).told(2, 0),
        Case::new("version-2-hit-1")
            .told(2, 1)
            .edit(Edit::Step(5, 1)),
        Case::new("version-2-forms-15")
            .told(2, 1)
            .edit(Edit::Form(15, 1)),
        Case::new("version-2-room-237").told(2, 0).room(237),
        Case::new("version-2-room-238").told(2, 0).room(238),
    ]
}
