// The numbers that tell an answer, all but the tables after the call.
use compile::Compiled;
use layers::Layers;
use lines::number_of;
use lines::output::Output;
use reasons::Refusal;

// A best value: 1 and its word, or 0 and 0.
fn put_value<R: Print>(output: &mut Output<R>, v: Option<i64>) {
    match v {
        Some(x) => output.put_all(&[1, words::word(x)]),
        None => output.put_all(&[0u64, 0]),
    }
}

// The stored layers: how many, and the first row and the row behind the last of each.
fn put_layers<R: Print>(output: &mut Output<R>, l: Layers) {
    output.put(l.count as u64);
    for layer in l.rows.iter().take(l.count) {
        output.put_all(&[layer.from as u64, layer.to as u64]);
    }
}

// What stands behind the number of a refused compile: no value, no path, no row and no layer.
fn nothing() -> Compiled {
    Compiled {
        exact: false,
        best: None,
        path: [0; 64],
        best_exact: None,
        exact_path: [0; 64],
        nodes: 0,
        edges: 0,
        drained: 0,
        layers: Layers::new(),
    }
}

// All but the tables.
pub fn put_answer<R: Print>(output: &mut Output<R>, answer: Result<Compiled, Refusal>) {
    output.put(number_of(&answer));
    let a = answer.unwrap_or(nothing());
    output.put(u64::from(a.exact));
    put_value(output, a.best);
    output.put_all(&a.path);
    put_value(output, a.best_exact);
    output.put_all(&a.exact_path);
    output.put_all(&[a.nodes as u64, a.edges as u64, a.drained as u64]);
    put_layers(output, a.layers);
}
