//! Address lines from worked examples. A case is a line, and what is found its name and its address.
use byte_lists::Bytes;
use netmail_rules::{Address, address_line};
use std::alloc::{AllocError, Global};
use test_cases::{Miss, expect_cases};

/// A name before an address, or none.
fn told(alloc: Global, name: Option<&[u8]>, address: &Address) -> Result<String, AllocError> {
    let Some(name) = name else {
        return String::from_str(alloc, "none");
    };
    let Address {
        zone,
        net,
        node,
        point,
    } = address;
    let name = name.escape_ascii();
    format!(in alloc; "\"{name}\" {zone} {net} {node} {point}")
}

fn read(alloc: Global, words: &[Bytes]) -> Result<String, Miss> {
    let [line] = words else {
        return Err(Miss::Words);
    };
    let line = line.as_slice();
    match address_line(line) {
        Some(found) => {
            let name = line.get(found.name_from..found.name_to);
            Ok(told(alloc, name, &found.address)?)
        }
        None => Ok(String::from_str(alloc, "none")?),
    }
}

const CASES: &str = r#"
Ann@2:5020/400.1 => "Ann" 2 5020 400 1
"  Ann @1:1/1 " => "Ann " 1 1 1 0
ann@host@0:0/0 => "ann@host" 0 0 0 0
A@00001:32767/00032.0 => "A" 1 32767 32 0
# Other lines.
Ann@2:5020/40000 => none
Ann@2:5020/400. => none
Ann@2:5020/400.1.1 => none
Ann@2:5020 => none
Ann@2/5020:400 => none
Ann@000001:1/1 => none
"Ann@ 1:1/1" => none
" @1:1/1" => none
A\x1Fnn@1:1/1 => none
"Ann 1:1/1" => none
1234567890123456789012345678901234567@1:1/1 => none
"" => none
"#;

#[test]
fn address_lines_are_read(rt: HostRuntime) -> Result<(), Miss> {
    expect_cases(rt.alloc(), CASES, read)
}
