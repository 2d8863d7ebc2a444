// Theorems only: what every step of the machine keeps, and that a scan ends within eight steps a byte. They are in specs/.
#![tactic(auto)]
