// Boxes as texts: name(0:1,2>0:3,back;2/3,1/1) has an input of struct 0 with the fields 1 and 2, an output of struct 0
// with the field 3, leads back, and has two components, of two states and three rules, and of one state and one rule.

use fa_core::boxes::BoxDef;
use fa_core::faces::BoxFace;
use fore_base::list::List;
use fore_base::memory::Mem;
use fore_base::text::Text;
use ta_core::auto::Auto;

/// Puts a box.
pub fn put_box(out: &mut Text, def: &BoxDef) -> Mem<()> {
    out.put(def.name.as_slice())?;
    out.put(b"(")?;
    put_face(out, &def.face)?;
    put_autos(out, def.inside.autos.as_slice())?;
    out.put(b")")
}

fn put_face(out: &mut Text, face: &BoxFace) -> Mem<()> {
    put_port(out, face.input, &face.gives_in)?;
    if let Some(output) = face.output {
        out.put(b">")?;
        put_port(out, output, &face.gives_out)?;
    }
    if face.back {
        out.put(b",back")?;
    }
    Ok(())
}

/// Puts a struct and fields.
fn put_port(out: &mut Text, shape: u32, fields: &List<u32>) -> Mem<()> {
    out.put_number(u64::from(shape))?;
    let mut mark: &[u8] = b":";
    for field in fields.as_slice() {
        out.put(mark)?;
        out.put_number(u64::from(*field))?;
        mark = b",";
    }
    Ok(())
}

fn put_autos(out: &mut Text, autos: &[Auto]) -> Mem<()> {
    let mut mark: &[u8] = b";";
    for auto in autos {
        out.put(mark)?;
        put_auto(out, auto)?;
        mark = b",";
    }
    Ok(())
}

fn put_auto(out: &mut Text, auto: &Auto) -> Mem<()> {
    out.put_number(u64::from(auto.states))?;
    out.put(b"/")?;
    out.put_number(auto.rules.len() as u64)
}
