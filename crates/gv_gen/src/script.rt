ghost use Rattle.std.specs.Prelude.{◌≡◌, ◌++◌, IfSome, IfNone};
ghost use Rattle.gv_gen.specs.Script.{rounds_from, group_lines, lines_behind};

use crate::draw::Generator;
use crate::group::Group;
use gv_text::Line;
use std::marker::Model;

/// How many rounds a script has.
const ROUNDS: u16 = 4_096;

/// The script that a number makes, line by line: two guests, their set-up, 4,096 rounds that are drawn
/// from the number, and `end`. A clause sees the lines that are left. It takes no memory.
#[derive(Drop)]
pub struct Script {
    group: Group,
    index: u8,
    rounds: u16,
    generator: Generator,
}

impl Model for Script {
    ghost use Rattle.std.specs.Prelude.{ℕ, ◌<◌, List, ◌++◌, drop, length};
    ghost use Rattle.gv_text.specs.declared.script_line.Line.{Line};
    ghost use Rattle.gv_gen.specs.Script.{group_lines, lines_behind};

    ghost Value = { List Line };

    ghost view = { λ s. drop s.index (group_lines s.group) ++ lines_behind s.group s.rounds s.generator.state };
}

impl Script {
    ghost use Rattle.std.specs.Prelude.{◌≡◌};
    ghost use Rattle.gv_gen.specs.Script.{script_of_number};

    /// The script of a number.
    pub fn new(number: u32) -> Script
        ensures { result ≡ script_of_number number }
    {
        Script {
            group: Group::Guests,
            index: 0,
            rounds: ROUNDS,
            generator: Generator {
                state: u64::from(number),
            },
        }
    }
}

impl Iterator for Script {
    ghost use Rattle.std.specs.Iterator.{YieldsFirst, item_count};

    type Item = Line;

    ghost next_gives = { YieldsFirst (λ s. s) };

    ghost remaining = { item_count (λ s. s) };

    fn next(&mut self) -> Option<Line> {
        if let Some(line) = self.group.line(self.index) {
            self.index += 1;
            return Some(line);
        }
        self.group = next_group(self.group, &mut self.rounds, &mut self.generator)?;
        self.index = 1;
        self.group.line(0)
    }
}

// The group behind a group; a round is drawn.
fn next_group(group: Group, rounds: &mut u16, generator: &mut Generator) -> Option<Group>
    ensures some { IfSome result (λ next. lines_behind group rounds.old generator.old.state
        ≡ group_lines next ++ lines_behind next rounds.new generator.new.state) }
    ensures none { IfNone result ((group ≡ Group.End) × (rounds.new ≡ rounds.old) × (generator.new ≡ generator.old)) }
{
    match group {
        Group::Guests => Some(Group::SetUp(0)),
        Group::SetUp(0) => Some(Group::SetUp(1)),
        Group::SetUp(_) => Some(next_round(rounds, generator)),
        Group::Round(_) => Some(next_round(rounds, generator)),
        Group::End => None,
    }
}

fn next_round(rounds: &mut u16, generator: &mut Generator) -> Group
    ensures { rounds_from rounds.old generator.old.state
        ≡ group_lines result ++ lines_behind result rounds.new generator.new.state }
{
    if *rounds == 0 {
        return Group::End;
    }
    *rounds -= 1;
    Group::Round(generator.draw())
}
