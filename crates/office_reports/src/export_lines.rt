// The lines of an export, as CSV.
ghost use Rattle.std.specs.Prelude.{◌≡◌, ◌++◌, false, map, Some, IfOk, OnOk, codes};
ghost use Rattle.std.specs.List.{flat_map};
ghost use Rattle.std.specs.Io.KnownBytes.{Appends};
ghost use Rattle.csv.specs.Writing as spec;
ghost use Rattle.office_reports.specs.Exports.{export_line, export_text};

use csv::{Writer, WriterBuilder};
use itoa::Buffer;
use road_time::{NoMemory, SpentRow};
use std::alloc::Global;
use std::io::Write;

/// Writes a record of four fields. A refusal of `csv` is want of memory.
fn put_fields<W: Write + Drop>(writer: &mut Writer<W>, fields: &[&[u8]]) -> Result<(), NoMemory>
    requires { (spec.fields_written writer.old ≡ 0) × (spec.has_written writer.old ≡ false)
        × (spec.writer_setup writer.old ≡ spec.default_writer) }
    ensures ready { OnOk result ((spec.fields_written writer.new ≡ 0) × (spec.has_written writer.new ≡ false)
        × (spec.writer_setup writer.new ≡ spec.default_writer)) }
    ensures wrote { OnOk result (Appends (spec.text_written W.contents writer.old)
        (spec.text_written W.contents writer.new) (spec.row_text spec.default_writer (map (λ f. f.now) fields.now))) }
{
    match writer.write_fields(fields) {
        Ok(()) => Ok(()),
        Err(_) => Err(NoMemory),
    }
}

/// Writes the names of the columns.
fn put_head<W: Write + Drop>(writer: &mut Writer<W>) -> Result<(), NoMemory>
    requires { (spec.fields_written writer.old ≡ 0) × (spec.has_written writer.old ≡ false)
        × (spec.writer_setup writer.old ≡ spec.default_writer) }
    ensures ready { OnOk result ((spec.fields_written writer.new ≡ 0) × (spec.has_written writer.new ≡ false)
        × (spec.writer_setup writer.new ≡ spec.default_writer)) }
    ensures wrote { OnOk result (Appends
        (spec.text_written W.contents writer.old) (spec.text_written W.contents writer.new)
        (codes "vid,day,xway,tolls\n")) }
{
    put_fields(writer, &[b"vid", b"day", b"xway", b"tolls"])
}

/// Writes the line of an amount.
fn put_row<W: Write + Drop>(writer: &mut Writer<W>, row: &SpentRow) -> Result<(), NoMemory>
    requires { (spec.fields_written writer.old ≡ 0) × (spec.has_written writer.old ≡ false)
        × (spec.writer_setup writer.old ≡ spec.default_writer) }
    ensures ready { OnOk result ((spec.fields_written writer.new ≡ 0) × (spec.has_written writer.new ≡ false)
        × (spec.writer_setup writer.new ≡ spec.default_writer)) }
    ensures wrote { OnOk result (Appends (spec.text_written W.contents writer.old)
        (spec.text_written W.contents writer.new) (export_line row.now)) }
{
    let (mut vid, mut day, mut xway, mut tolls) = (
        Buffer::new(),
        Buffer::new(),
        Buffer::new(),
        Buffer::new(),
    );
    put_fields(
        writer,
        &[
            vid.format(row.vid).as_bytes(),
            day.format(row.day).as_bytes(),
            xway.format(row.xway).as_bytes(),
            tolls.format(row.tolls).as_bytes(),
        ],
    )
}

/// The export of amounts.
pub(crate) fn export_text(alloc: Global, rows: &[SpentRow]) -> Result<Vec<u8>, NoMemory>
    ensures { IfOk result (λ text. text.items ≡ export_text rows.now) }
{
    let mut writer = WriterBuilder::new().from_writer(Vec::new(alloc));
    put_head(&mut writer)?;
    for row in rows {
        put_row(&mut writer, row)?;
    }
    match writer.into_inner() {
        Ok(text) => Ok(text),
        Err(_) => Err(NoMemory),
    }
}
