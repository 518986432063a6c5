// No entry points: the table of the powers of a root, and the transform that reads its turns from it, for who transforms several lists of one
// size.
#![tactic(auto)]

ghost use Rattle.std.specs.Prelude.{◌≡◌, ◌*◌, ◌%◌, ◌<◌, ◌≤◌, length, get_or};
ghost use Rattle.field.specs.Field.{power, inverse};
ghost use Rattle.field.specs.Points.{root_of};
ghost use Rattle.field.specs.Size.{level_of};
ghost use Rattle.lists.specs.Tab.{tab};
ghost use Rattle.transform_halving.specs.InPlace.{joined_halves, halved};
ghost use Rattle.transform_halving.specs.Transform.{sums, transform_of};
ghost use Rattle.transform_table.specs.Round.{turned_round};
ghost use Rattle.transform_table.specs.Turns.{Tabled};

use field::{difference, product, sum};
use transform_halving::arrange;

// Every step-th number of a table is a turn. So a table for N numbers serves N/2 too.
#[derive(Clone, Copy)]
pub struct Turns<'a> {
    pub table: &'a [u32],
    pub step: usize,
}

impl<'a> Turns<'a> {
    // Turn j, the power j of the root.
    fn at(self, j: usize) -> u32
        requires { j * self.step < length self.table.now }
        ensures { result ≡ get_or self.entry.table.now (j * self.entry.step) 0 }
    {
        self.table[j * self.step]
    }
}

pub fn lay_powers(root: u32, cells: &mut [u32])
    ensures { cells.new ≡ tab (length cells.old) (power root) }
{
    let mut turn: u32 = 1;
    for cell in cells.iter_mut() {
        *cell = turn;
        turn = product(turn, root);
    }
}

// The transforms of the halves lie side by side.
fn join_by(list: &mut [u32], turns: Turns)
    requires { Tabled list.old turns.table.now turns.step × (length list.old % 2 ≡ 0) }
    ensures { list.new ≡ joined_halves (root_of (length list.old)) list.old }
{
    let half = list.len() / 2;
    let (front, back) = list.split_at_mut(half);
    for (j, even) in front.iter_mut().enumerate() {
        let odd = product(turns.at(j), back[j]);
        let first = sum(*even, odd);
        let second = difference(*even, odd);
        *even = first;
        back[j] = second;
    }
}

// "down to size 1, which changes nothing". Every second turn is a turn of the halves. Table and step are handed on by themselves, since with
// `Turns` a frame would be twice as large, and there are thirteen at N = 4096.
fn halve_by(list: &mut [u32], table: &[u32], step: usize)
    requires { Tabled list.old table.now step }
    ensures { list.new ≡ halved (level_of (length list.old)) (root_of (length list.old)) list.old }
{
    if list.len() < 2 {
        return;
    }
    let half = list.len() / 2;
    let wider = 2 * step;
    let (front, back) = list.split_at_mut(half);
    halve_by(front, table, wider);
    halve_by(back, table, wider);
    join_by(list, Turns { table, step });
}

pub fn transform_by(list: &mut [u32], turns: Turns)
    requires { Tabled list.old turns.table.now turns.step }
    ensures { list.new ≡ transform_of list.old }
{
    arrange(list);
    halve_by(list, turns.table, turns.step);
}

fn turn_round(list: &mut [u32])
    ensures { list.new ≡ turned_round list.old }
{
    if !list.is_empty() {
        list[1..].reverse();
    }
}

// The sums at the root's inverse, with no division by N: they are those at the root, turned round.
pub fn back_by(list: &mut [u32], turns: Turns)
    requires { Tabled list.old turns.table.now turns.step }
    ensures { list.new ≡ sums (inverse (root_of (length list.old))) list.old }
{
    transform_by(list, turns);
    turn_round(list);
}
