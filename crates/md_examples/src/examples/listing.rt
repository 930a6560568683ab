// The files of the examples.
use std::fs::{self, Files};
use std::io;

/// The files of a folder's folders, as `TOPIC/NAME.txt`, ascending.
pub fn files_below<R: Files + AllocGlobal + Clone + Drop>(
    rt: &R,
    folder: &str,
) -> io::Result<Vec<String>> {
    let alloc = rt.alloc();
    let mut files = Vec::new(alloc);
    for topic in fs::read_dir(rt, folder)? {
        let topic = topic?;
        for file in fs::read_dir(rt, topic.path())? {
            let file = file?;
            let path = format!(in alloc; "{}/{}", topic.file_name(), file.file_name())?;
            files.push(path)?;
        }
    }
    files.sort()?;
    Ok(files)
}
