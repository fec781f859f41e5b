use anyhow::anyhow;
use std::env::Args;

// What the command line asks for.
#[derive(Drop)]
pub struct Options {
    pub strict: bool,
    pub script: Option<String>,
}

pub fn from_args(args: Args) -> anyhow::Result<Options> {
    let mut strict = false;
    let mut script = None;
    for arg in args.skip(1) {
        match arg.as_str() {
            "--strict" => strict = true,
            option if option.starts_with('-') => {
                return Err(anyhow!("unknown option; usage: simulator [--strict] [SCRIPT]"));
            }
            _ if script.is_some() => {
                return Err(anyhow!("more than one script; usage: simulator [--strict] [SCRIPT]"));
            }
            _ => script = Some(arg),
        }
    }
    Ok(Options { strict, script })
}
