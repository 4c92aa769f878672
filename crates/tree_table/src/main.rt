//! Reads operations on trees, one to a line, and prints what each answers, or `?` of a line that is none. `make OWN` ends
//! a tree and makes the next one in the same cells; it answers how many cells are free. Before, every second cell is
//! marked, and the others are blank; where a tree ends, a line says how many cells are blank and how many marked. Lines
//! before the first `make` go to a tree without cells.
#![tactic(auto)]

use std::alloc::{AllocError, Global};
use std::io;
use tree::cell::{Cell, Node};
use tree::tree::Tree;

/// How many cells are lent to each tree.
const LENT: usize = 2_048;

/// A marked cell. No tree makes such a node, since its links lead out of the cells.
const MARKED: Cell<u32, u32> = Cell::Used(Node {
    key: 0,
    value: 0,
    left: Some(u16::MAX),
    right: Some(u16::MAX),
});

/// What a line can ask for: the name of an operation in lower case, then its numbers, as in `insert KEY VALUE CELL`.
#[derive(Clone, Copy)]
enum Operation {
    Make { own: usize },
    Insert { key: u32, value: u32, cell: u16 },
    Change { key: u32, value: u32 },
    Remove { key: u32 },
    Find { key: u32 },
    First,
    Place { place: usize },
    Len,
    List,
}

impl Operation {
    /// The operation that these words ask for, if they ask for one.
    fn from_words(words: &[&str]) -> Option<Operation> {
        let operation = match *words {
            ["make", own] => Operation::Make {
                own: own.parse().ok()?,
            },
            ["insert", key, value, cell] => Operation::Insert {
                key: key.parse().ok()?,
                value: value.parse().ok()?,
                cell: cell.parse().ok()?,
            },
            ["change", key, value] => Operation::Change {
                key: key.parse().ok()?,
                value: value.parse().ok()?,
            },
            ["remove", key] => Operation::Remove {
                key: key.parse().ok()?,
            },
            ["find", key] => Operation::Find {
                key: key.parse().ok()?,
            },
            ["first"] => Operation::First,
            ["place", place] => Operation::Place {
                place: place.parse().ok()?,
            },
            ["len"] => Operation::Len,
            ["list"] => Operation::List,
            _ => return None,
        };
        Some(operation)
    }
}

/// The operation that a line asks for, if it asks for one.
fn parsed(heap: Global, line: &str) -> Result<Option<Operation>, AllocError> {
    let words: Vec<&str> = line.split_whitespace().collect(heap)?;
    Ok(Operation::from_words(&words))
}

/// Carries out an operation, and gives the line to print.
fn answer(
    heap: Global,
    tree: &mut Tree<'_, u32, u32>,
    operation: Operation,
) -> Result<String, AllocError> {
    match operation {
        Operation::Make { .. } => {
            let free = (0..=u16::MAX).filter(|cell| tree.is_free(*cell)).count();
            format!(in heap; "{free}")
        }
        Operation::Insert { key, value, cell } => format!(in heap;
            "{:?}",
            tree.insert(key, value, cell)
        ),
        Operation::Change { key, value } => format!(in heap; "{:?}", tree.change(&key, value)),
        Operation::Remove { key } => format!(in heap; "{:?}", tree.remove(&key)),
        Operation::Find { key } => format!(in heap; "{:?}", tree.find(&key)),
        Operation::First => format!(in heap; "{:?}", tree.first()),
        Operation::Place { place } => format!(in heap; "{:?}", tree.place(place)),
        Operation::Len => format!(in heap; "{}", tree.len()),
        Operation::List => {
            let all: Vec<(u32, u32)> = (0..tree.len()).filter_map(|j| tree.place(j)).collect(heap)?;
            format!(in heap; "{all:?}")
        }
    }
}

/// One tree's life: a `make` and the lines after it.
fn live(
    rt: &(impl Print + AllocGlobal),
    cells: &mut [Cell<u32, u32>],
    lines: &[Option<Operation>],
) -> io::Result<()> {
    let own = match lines.first() {
        Some(Some(Operation::Make { own })) => *own,
        _ => 0,
    };
    for (i, cell) in cells.iter_mut().enumerate() {
        *cell = if i % 2 == 0 { Cell::Blank } else { MARKED };
    }
    let mut tree = Tree::make(cells, own);
    for line in lines {
        match line {
            Some(operation) => rt.println(answer(rt.alloc(), &mut tree, *operation)?)?,
            None => rt.println("?")?,
        }
    }
    let blank = cells.iter().filter(|cell| **cell == Cell::Blank).count();
    let marked = cells.iter().filter(|cell| **cell == MARKED).count();
    println!(rt; "{blank} blank, {marked} marked")
}

fn main(rt: HostRuntime) -> anyhow::Result<()> {
    let heap = rt.alloc();
    let text = io::read_to_string(heap, rt.stdin())?;
    let lines: Vec<Option<Operation>> = text
        .lines()
        .map(|line| parsed(heap, line))
        .try_collect(heap)?;
    let mut cells = vec![in heap; MARKED; LENT]?;
    for life in lines.chunk_by(|_, next| !matches!(next, Some(Operation::Make { .. }))) {
        live(&rt, &mut cells, life)?;
    }
    Ok(())
}
