// Scripts.
use md_machine::Batch;
use md_rows::{Field, RowError};
use md_script::{Line, ScriptError, What, read_script};
use md_world::Order;
use std::alloc::{AllocError, Global};

fn push_number(shown: &mut String, name: &str, number: Option<u64>) -> Result<(), AllocError> {
    match number {
        Some(number) => write!(shown, " {name}={number}"),
        None => Ok(()),
    }
}

fn push_batch(shown: &mut String, batch: &Batch) -> Result<(), AllocError> {
    push_number(shown, "first", batch.first.map(u64::from))?;
    push_number(shown, "progress", batch.progress.map(u64::from))?;
    push_number(shown, "update", batch.update.map(u64::from))?;
    push_number(shown, "ms", batch.ms)
}

fn push_order(shown: &mut String, order: &Order) -> Result<(), AllocError> {
    for key in order.keys() {
        shown.push_str(if key.descending { " by=-" } else { " by=" })?;
        shown.push_str(key.name.as_str())?;
    }
    Ok(())
}

fn push_what(alloc: Global, shown: &mut String, what: &What) -> Result<(), AllocError> {
    match what {
        What::Put { path, text } => write!(shown, "put [{}] [{}]", path.as_str(), text.as_str()),
        What::Import { path } => write!(shown, "import [{}]", path.as_str()),
        What::Remove { path } => write!(shown, "remove [{}]", path.as_str()),
        What::Query {
            client,
            number,
            expr,
            scope,
            order,
            batch,
        } => {
            write!(shown, "c{client} query {number} in=[{}]", scope.as_str())?;
            push_batch(shown, batch)?;
            push_order(shown, order)?;
            shown.push_str(" where ")?;
            shown.push_str(&md_expr::print(alloc, expr)?)
        }
        What::Gather { client, number } => write!(shown, "c{client} gather {number}"),
        What::Poll { client, number } => write!(shown, "c{client} poll {number}"),
        What::Disable { client, number } => write!(shown, "c{client} disable {number}"),
        What::Enable { client, number } => write!(shown, "c{client} enable {number}"),
        What::Stop { client, number } => write!(shown, "c{client} stop {number}"),
        What::Show { client, number } => write!(shown, "c{client} show {number}"),
        What::Vacuum { client } => write!(shown, "c{client} vacuum"),
    }
}

// The lines that say something, each with its number and its moment.
fn shown(alloc: Global, lines: &[Line]) -> Result<String, AllocError> {
    let mut shown = String::new(alloc);
    for line in lines {
        write!(&mut shown, "{} at {}: ", line.number, line.at_ms)?;
        push_what(alloc, &mut shown, &line.what)?;
        shown.push('\n')?;
    }
    Ok(shown)
}

/// The bytes of a script: its lines, or why it is refused.
pub fn script(alloc: Global, fields: &[Field]) -> Result<String, RowError> {
    let [bytes] = fields else {
        return Err(RowError::Count);
    };
    match read_script(alloc, bytes.bytes()) {
        Ok(script) => Ok(shown(alloc, script.lines())?),
        Err(ScriptError::BadLine(number)) => Ok(format!(in alloc; "bad line {number}")?),
        Err(ScriptError::TooLong) => Ok(String::from_str(alloc, "too long")?),
        Err(ScriptError::TooManyLines) => Ok(String::from_str(alloc, "too many lines")?),
        Err(ScriptError::Memory) => Err(RowError::Memory),
    }
}
