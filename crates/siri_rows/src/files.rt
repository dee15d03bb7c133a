//! Files of rows.

use crate::facts::wanted_of;
use crate::given::{Given, words_of};
use crate::members::{Members, has_only};
use crate::running::came_of;
use crate::telling::are_same;
use anyhow::{Context, Result, bail};
use std::alloc::Global;
use std::fs;
use toml::{Table, Value};

/// How many rows there were, and how many came as they were wanted.
#[derive(Clone, Copy)]
pub(crate) struct Count {
    pub(crate) rows: u64,
    pub(crate) same: u64,
}

/// Runs the rows of all files but the first, which has what they share.
pub(crate) fn run_files(rt: &HostRuntime, names: &[String]) -> Result<Count> {
    let Some((shared, names)) = names.split_first() else {
        bail!("no files");
    };
    let shared = read_table(rt, shared.as_str()).context(format_args!("{shared}"))?;
    has_only(&shared, &["like", "texts"])?;
    let mut all = Count { rows: 0, same: 0 };
    for name in names {
        let count = run_file(rt, name.as_str(), &shared);
        let Count { rows, same } = count.context(format_args!("{name}"))?;
        println!(rt; "{name}: {same} of {rows}")?;
        all.rows = all.rows.saturating_add(rows);
        all.same = all.same.saturating_add(same);
    }
    Ok(all)
}

/// The table of a file.
fn read_table(rt: &HostRuntime, name: &str) -> Result<Table> {
    let text = fs::read_to_string(rt, name)?;
    Ok(toml::table_from_str(rt.alloc(), text.as_str())?)
}

/// Runs the rows of a file.
fn run_file(rt: &HostRuntime, name: &str, shared: &Table) -> Result<Count> {
    let file = read_table(rt, name)?;
    has_only(&file, &["row", "all", "like", "texts"])?;
    none_again(&file, shared, "like")?;
    none_again(&file, shared, "texts")?;
    let rows = file.get("row").and_then(Value::as_array);
    let mut count = Count { rows: 0, same: 0 };
    for row in rows.context("a file without rows")? {
        let row = row.as_table().context("a row that is no table")?;
        count.rows = count.rows.saturating_add(1);
        if is_as_wanted(rt, row, &file, shared)? {
            count.same = count.same.saturating_add(1);
        }
    }
    Ok(count)
}

/// Refuses a file of which a named table has a name again that all files share.
fn none_again(file: &Table, shared: &Table, table: &str) -> Result<()> {
    let own = file.get(table).and_then(Value::as_table);
    let shared = shared.get(table).and_then(Value::as_table);
    if let (Some(own), Some(shared)) = (own, shared) {
        for name in own.keys() {
            if shared.contains_key(name.as_str()) {
                bail!("{name} stands in two files");
            }
        }
    }
    Ok(())
}

/// Whether a row of a file comes as it is wanted; what differs is printed.
fn is_as_wanted(rt: &HostRuntime, row: &Table, file: &Table, shared: &Table) -> Result<bool> {
    let name = row.get("name").and_then(Value::as_str);
    let name = name.context("a row without a name")?;
    is_run(rt, name, row, file, shared).context(format_args!("{name}"))
}

/// The same of a row of a name.
fn is_run(rt: &HostRuntime, name: &str, row: &Table, file: &Table, shared: &Table) -> Result<bool> {
    let alloc = rt.alloc();
    let members = Members::of(alloc, row, file, shared)?;
    let given = Given::of(alloc, &members)?;
    let mut same = true;
    for (command, output) in commands_of(alloc, &members)? {
        let wanted = wanted_of(alloc, &members, output)?;
        let words = words_of(alloc, command)?;
        let came = came_of(alloc, &members, &given, &words)?;
        same = are_same(rt, name, command, &wanted, &came)? && same;
    }
    Ok(same)
}

/// The commands of a row, each with the member that has its output.
fn commands_of<'a>(alloc: Global, row: &Members<'a>) -> Result<Vec<(&'a str, &'static str)>> {
    let mut all = Vec::new(alloc);
    if let Some(command) = row.get("command") {
        all.push((command.as_str().context("a command is a text")?, "output"))?;
    }
    if row.get("check").is_some() {
        all.push(("siri check", "check"))?;
    }
    if row.get("convert").is_some() {
        all.push(("siri convert", "convert"))?;
    }
    if all.is_empty() {
        bail!("a row without a command");
    }
    Ok(all)
}
