// A child that waits for the end of this process, however it comes.
use std::alloc::Global;
use std::fs::File;
use std::io::{self, Write};
use std::process::{Child, Command, Processes, Stdio};

/// Waits for the end of its input. Without the word `end` before, the program was ended: it ends all processes that carry the mark, and says
/// what is left. It hears no signal that ends the program's own group. Its words are the mark, the file and what else is said.
const SCRIPT: &str = "trap '' INT TERM HUP QUIT; read -r word && exit 0; \
sweep() { for f in $(grep -lszxF \"CREDUCE_RUN=$1\" /proc/[0-9]*/environ); do p=${f#/proc/}; kill -\"$2\" \"${p%/environ}\" 2>/dev/null; done; }; \
sweep \"$1\" TERM; sleep 1; sweep \"$1\" KILL; name=$(printf %s \"$2\" | tr '[:cntrl:]' '?'); \
if [ -z \"$2\" ]; then left=; elif [ ! -e \"$2.orig\" ] || cmp -s -- \"$2\" \"$2.orig\"; then left=\"; $name is as it was\"; else left=\"; $name has its old bytes or the result's\"; fi; \
printf 'creduce: ended from outside%s\\n' \"$left\" >&2; [ -z \"$3\" ] || printf '%s\\n' \"$3\" >&2";

/// The child, once it runs. `P` is a process of the system's.
#[derive(Drop)]
pub struct Watchman<P: std::process::OpenProcess + Drop> {
    child: Child<P>,
}

/// Starts a watchman for the run of this mark, which holds the lock on while it ends what the run has left, and then says what is left of
/// the file, and `how`.
pub fn watch<R: Processes>(
    rt: &R,
    alloc: Global,
    lock: Option<File>,
    mark: &str,
    reduced: Option<&str>,
    how: &str,
) -> io::Result<Watchman<R::Started>> {
    let mut command = Command::new(alloc, "sh")?;
    command
        .arg("-c")?
        .arg(SCRIPT)?
        .arg("sh")?
        .arg(mark)?
        .arg(reduced.unwrap_or(""))?
        .arg(how)?;
    let output = match lock {
        Some(lock) => Stdio::from(lock),
        None => Stdio::null(),
    };
    command.stdin(Stdio::piped()).stdout(output);
    let child = command.spawn(rt)?;
    Ok(Watchman { child })
}

impl<P: std::process::OpenProcess + Drop> Watchman<P> {
    /// Sends it home, and waits until it has gone.
    pub fn dismiss(mut self) -> io::Result<()> {
        if let Some(end) = &mut self.child.stdin {
            end.write_all(b"end\n")?;
        }
        self.child.wait()?;
        Ok(())
    }
}
