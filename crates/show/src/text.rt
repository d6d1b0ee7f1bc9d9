// The drawing as text.
//
// A disk that lives is a bar, from top to bottom; what is written on it stands beside the bar. What is asked
// stands on the left, what is told on the right.
use crate::rows::{Row, Sort};
use device::mirror::Side;
use std::alloc::AllocError;
use std::fmt::Write;

// What stands at a disk's bar.
fn bar(row: &Row, side: Side) -> &'static str {
    if row.sort == Sort::Death(side) {
        return "X";
    }
    if row.living.has(side) { "|" } else { " " }
}

// The text beside a disk's bar: only what is about this disk.
fn beside<'a>(row: &'a Row, side: Side) -> &'a str {
    match row.sort {
        Sort::Written { disk, .. } | Sort::Unwritten { disk, .. } | Sort::Death(disk)
            if disk == side => { row.text.as_str() }
        _ => "",
    }
}

// A row of writes, of a death or of what is told.
fn draw_disks(out: &mut String, row: &Row) -> Result<(), AllocError> {
    let heap = *out.allocator();
    let number = match row.sort {
        Sort::Written { number, .. } => format!(in heap; "{number}")?,
        // Not written: the disk is dead.
        Sort::Unwritten { number, .. } => format!(in heap; "({number})")?,
        _ => String::new(heap),
    };
    let a = bar(row, Side::First);
    let b = bar(row, Side::Second);
    let first = beside(row, Side::First);
    let second = beside(row, Side::Second);
    let told = match row.sort {
        Sort::Told => row.text.as_str(),
        _ => "",
    };
    let line = format!(in heap; "{number:>6}  {a} {first:<34} {b} {second:<34} {told}")?;
    let line = line.as_str().trim_end();
    writeln!(out, "{line}")
}

// A row that goes over both disks.
fn draw_across(out: &mut String, row: &Row, fill: &str) -> Result<(), AllocError> {
    let text = row.text.as_str();
    writeln!(out, "        {fill}{fill} {text} {fill}{fill}")
}

fn draw_row(out: &mut String, row: &Row) -> Result<(), AllocError> {
    match row.sort {
        Sort::Asked => {
            let text = row.text.as_str();
            writeln!(out, "{text}")
        }
        Sort::Power => draw_across(out, row, "=========="),
        Sort::Set => draw_across(out, row, "----------"),
        Sort::Written { .. } | Sort::Unwritten { .. } | Sort::Told | Sort::Death(_) => {
            draw_disks(out, row)
        }
    }
}

// The whole drawing, put behind what is there.
pub fn draw(out: &mut String, rows: &[Row]) -> Result<(), AllocError> {
    let head = "first disk";
    writeln!(out, "        {head:<36} second disk")?;
    for row in rows {
        draw_row(out, row)?;
    }
    Ok(())
}
