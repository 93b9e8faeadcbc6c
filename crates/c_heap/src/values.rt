ghost use Rattle.std.specs.Prelude.{◌≡◌, length, map};
ghost use Rattle.fore_base.specs.Stores.{dangle, set_each};
ghost use Rattle.c_types.specs.Steps.{below};

use fore_base::list::List;
use fore_base::store::Value;

/// The value after the cell of this number has ended.
pub fn dangled(value: Value, number: u64) -> Value
    ensures { result ≡ dangle number value }
{
    match value {
        Value::Cell(other) => if other == number {
            Value::Dangling
        } else {
            value
        },
        _ => value,
    }
}

/// Lets each of the values that names the cell of this number dangle.
pub fn dangle_all(values: &mut List<Value>, number: u64)
    ensures { values.new ≡ map (dangle number) values.old }
{
    for i in 0..values.len() {
        let value = *values.at(i);
        values.set(i, dangled(value, number));
    }
}

/// Sets each item of the list.
pub fn set_all<T: Copy>(list: &mut List<T>, item: T)
    ensures { list.new ≡ set_each list.old (below (length list.old)) item }
{
    for i in 0..list.len() {
        list.set_within(i, item);
    }
}

/// Sets the items at these places; nothing at one past the end.
pub fn set_these<T: Copy>(list: &mut List<T>, places: &[u32], item: T)
    ensures { list.new ≡ set_each list.old places.now item }
{
    for place in places {
        list.set_within(*place as usize, item);
    }
}
