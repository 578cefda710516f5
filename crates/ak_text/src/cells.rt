//! How cells and rows are written.
ghost use Rattle.std.specs.Prelude.{◌≡◌, ◌++◌, ◌≤◌, OnOk, take};
ghost use Rattle.std.specs.List.{flat_map};
ghost use Rattle.ak_text.specs.Rows.{crlf, time_text, csv_cell, csv_row, resp_cell, time_mark, resp_row, row_text};

use crate::form::Form;
use crate::names::{write_name, write_time};
use crate::values::{write_number, write_value};
use ak_base::Text;
use ak_rows::{Cell, Row};
use std::alloc::AllocError;

fn write_csv_cell(scale: u32, cell: Cell, row: &mut Vec<u8>) -> Result<(), AllocError>
    requires { scale ≤ 9 }
    ensures { OnOk result (row.new.items ≡ row.old.items ++ csv_cell scale cell) }
{
    row.push(b',')?;
    match cell {
        Cell::Hole => Ok(()),
        Cell::Units(units) => write_value(scale, units, row),
        Cell::Number(number) => write_number(number, row),
    }
}

fn write_csv_cells(scale: u32, cells: &[Cell], row: &mut Vec<u8>) -> Result<(), AllocError>
    requires { scale ≤ 9 }
    ensures { OnOk result (row.new.items ≡ row.old.items ++ flat_map (csv_cell scale) cells.now) }
{
    for cell in cells {
        write_csv_cell(scale, *cell, row)?;
    }
    Ok(())
}

// Appends a row of CSV.
fn write_csv(
    iso: bool,
    scale: u32,
    name: &[u8],
    r: &Row,
    row: &mut Vec<u8>,
) -> Result<(), AllocError>
    requires scale { scale ≤ 9 }
    requires few { r.now.n ≤ 32 }
    ensures { OnOk result (row.new.items
        ≡ row.old.items ++ csv_row scale name.now (time_text iso r.now.time) (take r.now.n r.now.cells)) }
{
    write_name(name, row)?;
    row.push(b',')?;
    write_time(iso, r.time, row)?;
    write_csv_cells(scale, &r.cells[..r.n as usize], row)?;
    row.push(b'\n')?;
    Ok(())
}

fn write_crlf(row: &mut Vec<u8>) -> Result<(), AllocError>
    ensures { OnOk result (row.new.items ≡ row.old.items ++ crlf) }
{
    row.extend_from_slice(b"\r\n")
}

fn write_resp_cell(scale: u32, cell: Cell, row: &mut Vec<u8>) -> Result<(), AllocError>
    requires { scale ≤ 9 }
    ensures { OnOk result (row.new.items ≡ row.old.items ++ resp_cell scale cell) }
{
    match cell {
        Cell::Hole => row.extend_from_slice(b"$-1")?,
        Cell::Units(units) => {
            row.push(if scale == 0 { b':' } else { b'+' })?;
            write_value(scale, units, row)?;
        }
        Cell::Number(number) => {
            row.push(b':')?;
            write_number(number, row)?;
        }
    }
    write_crlf(row)
}

fn write_resp_cells(scale: u32, cells: &[Cell], row: &mut Vec<u8>) -> Result<(), AllocError>
    requires { scale ≤ 9 }
    ensures { OnOk result (row.new.items ≡ row.old.items ++ flat_map (resp_cell scale) cells.now) }
{
    for cell in cells {
        write_resp_cell(scale, *cell, row)?;
    }
    Ok(())
}

fn mark_of_time(iso: bool) -> u8
    ensures { result ≡ time_mark iso }
{
    if iso { b'+' } else { b':' }
}

// Appends a row of RESP.
fn write_resp(
    iso: bool,
    scale: u32,
    name: &[u8],
    r: &Row,
    row: &mut Vec<u8>,
) -> Result<(), AllocError>
    requires scale { scale ≤ 9 }
    requires few { r.now.n ≤ 32 }
    ensures { OnOk result (row.new.items
        ≡ row.old.items ++ resp_row iso scale name.now (time_text iso r.now.time) (take r.now.n r.now.cells)) }
{
    row.push(b'+')?;
    row.extend_from_slice(name)?;
    write_crlf(row)?;
    row.push(mark_of_time(iso))?;
    write_time(iso, r.time, row)?;
    write_crlf(row)?;
    write_resp_cells(scale, &r.cells[..r.n as usize], row)
}

/// Appends a row whose track has this name.
pub(crate) fn write_row(
    form: Form,
    name: &Text,
    r: &Row,
    row: &mut Vec<u8>,
) -> Result<(), AllocError>
    requires scale { form.scale ≤ 9 }
    requires few { r.now.n ≤ 32 }
    ensures { OnOk result (row.new.items ≡ row.old.items ++ row_text form name.now r.now) }
{
    let name = name.as_str().as_bytes();
    if form.resp {
        write_resp(form.iso, form.scale, name, r, row)
    } else {
        write_csv(form.iso, form.scale, name, r, row)
    }
}
