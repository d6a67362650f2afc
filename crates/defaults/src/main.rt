// The default codes, printed: PIN1, then PIN2, each as capital hex and a line feed. What must come is made by tests/default-pins.py with
// another library's SHA-256. Proved safe and ending; that the meaning has the same bytes is proved where they are used.
#![tactic(auto)]

use card::Codes;

fn main(rt: HostRuntime) {
    for code in [Codes::DEFAULT_PIN1, Codes::DEFAULT_PIN2] {
        console::say_hex(&rt, &code);
        console::say(&rt, b"\n");
    }
}
